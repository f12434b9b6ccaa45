// Reads a key and 1 to 16 words from standard input, and prints their fold, or "refused".
#![tactic(auto)]

use std::io;
use std::io::Write;

// No contract can speak of what a program reads and writes: the line is a function of the input in `foldtext`. (`batchprint` does the same with
// another text: only a main is handed the runtime.)
fn main(rt: HostRuntime) -> io::Result<()> {
    // One byte more than the longest input, so that a longer one is seen to be too long.
    let mut buffer = [0u8; 137];
    let n = cases::read_full(&mut rt.stdin(), &mut buffer)?;
    rt.stdout()
        .write_all(foldtext::line(&buffer[..n]).as_bytes())
}
