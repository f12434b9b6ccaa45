// What the programs share: how they read their input, the lines that they print, and ranges that they derive from a seed. What a program
// writes no contract can say; where a function has a contract, it is what its callers need to be safe.
#![tactic(auto)]

pub mod input;

ghost use Rattle.std.specs.Prelude.{◌≡◌, ◌≤◌, length, get_or, set, IfOk};
ghost use Rattle.words.specs.Xor.{◌⊕◌};

use rules::Record;
use std::io;
use std::io::{Read, Write};

// Two sessions, one on each side.
#[derive(Clone, Copy)]
pub struct Sessions {
    pub receiver: Record,
    pub sender: Record,
}

// Reads until the range is full or the input ends, and gives how many bytes it read. The `ensures` says that the range has so many. (The
// loop stays a `while`: it ends when the input does, and the library's methods that read to an end want a heap.)
pub fn read_full(input: &mut impl Read, range: &mut [u8]) -> io::Result<usize>
    ensures { IfOk result (λ n. n ≤ length range.new) }
{
    let mut done = 0;
    while done < range.len() {
        let n = input.read(&mut range[done..])?;
        if n == 0 {
            break;
        }
        done += n;
    }
    Ok(done)
}

// Prints some bytes in hexadecimal digits. (A slice has no `Display`.)
pub fn print_digits(to: &mut impl Write, s: &[u8]) -> io::Result<()> {
    for byte in s {
        write!(to, "{byte:02x}")?;
    }
    Ok(())
}

// And a newline after them.
pub fn print(to: &mut impl Write, s: &[u8]) -> io::Result<()> {
    print_digits(to, s)?;
    to.write_all(b"\n")
}

// A million of a byte. The `ensures` gives only the length, which lending the array as a slice needs.
pub fn million(b: u8) -> [u8; 1000000]
    ensures { 1000000 ≡ length result }
{
    [b; 1000000]
}

// A range that a seed and a number give: bytes 32j to 32j + 31 are the digest of the seed, the number and j, 4 bytes each. This is the
// longest that any step is lent, and some bytes more; the `ensures` gives its length.
pub fn derived(seed: u32, range: u32) -> [u8; 61472]
    ensures { 61472 ≡ length result }
{
    let mut out = [0u8; 61472];
    let mut m = [0u8; 12];
    words::store32(&mut m, 0, seed);
    words::store32(&mut m, 4, range);
    for j in 0..1921u32 {
        words::store32(&mut m, 8, j);
        let at = 32 * (j as usize);
        words::copy_part(&mut out, at, &sha256::one::digest(&m));
    }
    out
}

// Adds a mask to one byte, if there is one at that place. (No method of a slice does that.)
pub fn alter(s: &mut [u8], at: usize, mask: u8)
    ensures { s.new ≡ set s.old at (get_or s.old at 0 ⊕ mask) }
{
    if at < s.len() {
        s[at] = s[at] ^ mask;
    }
}
