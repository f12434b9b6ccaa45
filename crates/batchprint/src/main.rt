// Reads a batch file from standard input, and prints its head, and the length and the digest of each of its bodies; or why it is refused.
#![tactic(auto)]

use std::io;
use std::io::Write;

// No contract can speak of what a program reads and writes: the text is a function of the input in `filetext`.
fn main(rt: HostRuntime) -> io::Result<()> {
    // One byte more than the longest file, so that a longer one is seen to be too long.
    let mut buffer = [0u8; batchfile::LONGEST_FILE + 1];
    let n = cases::read_full(&mut rt.stdin(), &mut buffer)?;
    rt.stdout()
        .write_all(filetext::text_of(&buffer[..n]).as_bytes())
}
