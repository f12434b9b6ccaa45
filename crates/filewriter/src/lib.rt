// A batch written to a file, from its start to its end, so that the reader takes it and gives the same back. Of the bodies' bytes only the
// key's are looked at.
#![tactic(auto)]

ghost use Rattle.std.specs.Prelude.{◌≡◌, true, not, ◌++◌, ◌^◌, ◌≤◌, ◌<◌, eqb, length};
ghost use Rattle.words.specs.Bytes.{bytes};
ghost use Rattle.words.specs.Pieces.{Room, Laid};
ghost use Rattle.sizes.specs.Sizes.{width_allowed, setup_message_length, head_length, entries_with, file_length};
ghost use Rattle.rules.specs.Orders.{most_blocks};
ghost use Rattle.batchfile.specs.Laid.{place_in, contents_in, head_bytes};
ghost use Rattle.filewriter.specs.Write.{file_of, write_answer, lent, WriteFile};
ghost use Rattle.filewriter.specs.Lengths.{size_in};

use answer::{Refusal, require};
use batchfile::FileHead;

// The bodies of a batch but its head. An empty setup means none, as C lends it (`bodies_with`).
#[derive(Clone, Copy)]
pub struct Bodies<'a> {
    pub setup: &'a [u8],
    pub correction: &'a [u8],
    pub key: &'a [u8],
    pub check: &'a [u8],
}

// Whether a setup of so many bytes is one: an empty range means none.
fn is_there(setup: usize) -> bool
    ensures { result ≡ not (eqb setup 0) }
{
    setup != 0
}

// The number of entries.
fn entries_with(setup: usize) -> usize
    ensures { result ≡ entries_with setup }
{
    if is_there(setup) { 5 } else { 4 }
}

// The exact length of the file, where nothing else is refused.
fn file_length(head: FileHead, setup: usize) -> usize
    requires { (width_allowed head.width ≡ true) × (head.blocks ≤ most_blocks) × (setup ≤ setup_message_length) }
    ensures { result ≡ file_length head.width head.blocks setup }
{
    let contents = batchfile::contents_length(entries_with(setup));
    let correction = sizes::correction_length(head.width, head.blocks);
    contents
        + (setup
            + sizes::HEAD_LENGTH
            + correction
            + sizes::KEY_LENGTH
            + sizes::CHECK_MESSAGE_LENGTH)
}

// The answer: by the reader's own rules, and then by the file's length.
#[tactic(auto, unfolding(crate::specs::Write::write_answer, answer::specs::Answer::first_of))]
fn write_answer(head: FileHead, bodies: Bodies<'_>, file: usize) -> Result<(), Refusal>
    ensures { result ≡ write_answer head (lent bodies.entry) file }
{
    let setup = bodies.setup.len();
    batchfile::values::answer(
        head,
        is_there(setup),
        setup,
        bodies.correction.len(),
        bodies.key,
        bodies.check.len(),
    )?;
    require(file == file_length(head, setup), Refusal::Length)?;
    Ok(())
}

// Lays an entry over the file from a place on, and returns the place after it. So do the functions that follow, each with a piece of its
// own. (The kind is a number, as it is counted from entry to entry.)
fn lay_entry(file: &mut [u8], at: usize, kind: usize, place: usize, length: usize) -> usize
    requires { Room file.old at (bytes 4 kind ++ (bytes 4 place ++ bytes 4 length)) × (kind < 2 ^ 32) × (place < 2 ^ 32) × (length < 2 ^ 32) }
    ensures { Laid file.old at (bytes 4 kind ++ (bytes 4 place ++ bytes 4 length)) file.new result }
{
    let mut next = words::lay(file, at, &words::bytes32(kind as u32));
    next = words::lay(file, next, &words::bytes32(place as u32));
    words::lay(file, next, &words::bytes32(length as u32))
}

// The contents of n bodies, the last of the five kinds, by the lengths of all five. The place of each body is carried from entry to entry.
fn lay_contents(file: &mut [u8], n: usize, lengths: [usize; 5]) -> usize
    requires { Room file.old 0 (contents_in n (size_in n lengths)) × (4 ≤ n) × (n ≤ 5) × (place_in n (size_in n lengths) n < 2 ^ 32) }
    ensures { Laid file.old 0 (contents_in n (size_in n lengths)) file.new result }
{
    let mut at = words::lay(file, 0, &words::bytes32(n as u32));
    let mut place = batchfile::contents_length(n);
    for e in 0..n {
        let kind = e + 6 - n;
        let length = lengths[kind - 1];
        at = lay_entry(file, at, kind, place, length);
        place += length;
    }
    at
}

// The long head. Numbers beyond a byte were refused before; `%` shows that a cast loses nothing, where `try_from` would test it again.
fn lay_head(file: &mut [u8], at: usize, head: FileHead) -> usize
    requires { Room file.old at (head_bytes head_length head) }
    ensures { Laid file.old at (head_bytes head_length head) file.new result }
{
    let first = [(head.width % 256) as u8, (head.blocks % 256) as u8];
    let next = words::lay(file, at, &first);
    words::lay(file, next, &words::bytes64(head.batch))
}

// Lays out the whole file. A setup that is absent has no bytes, so its body needs no branch.
fn lay_file(head: FileHead, bodies: Bodies<'_>, file: &mut [u8])
    requires { (length file.old ≡ length (file_of head (lent bodies))) × (length file.old < 2 ^ 32) }
    ensures { file.new ≡ file_of head (lent bodies.entry) }
{
    let lengths = [
        bodies.setup.len(),
        sizes::HEAD_LENGTH,
        bodies.correction.len(),
        bodies.key.len(),
        bodies.check.len(),
    ];
    let mut at = lay_contents(file, entries_with(bodies.setup.len()), lengths);
    at = words::lay(file, at, bodies.setup);
    at = lay_head(file, at, head);
    at = words::lay(file, at, bodies.correction);
    at = words::lay(file, at, bodies.key);
    words::lay(file, at, bodies.check);
}

// Writes a batch to a file.
pub fn write(head: FileHead, bodies: Bodies<'_>, file: &mut [u8]) -> Result<(), Refusal>
    ensures { WriteFile head (lent bodies.entry) file.old result file.new }
{
    write_answer(head, bodies, file.len())?;
    lay_file(head, bodies, file);
    Ok(())
}
