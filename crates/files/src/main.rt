// Reads the files that the records of standard input give, and prints a line for each: the answer, the head's values, where the bodies
// begin, and the body of every kind as it is handed out. Or it writes a file, and prints the answer and the file's digest. The records and
// the lines to be printed are written by reference/. What a program reads and writes no contract can say, so these functions have none, or
// only what makes their callers safe; that the lines are right is for the comparison to show.
#![tactic(auto)]

ghost use Rattle.std.specs.Prelude.{◌≤◌, length};
ghost use Rattle.std.specs.Iterator.{at_most};

use batchfile::{FileHead, Places};
use cases::input::Records;
use filewriter::Bodies;
use std::io;
use std::io::Write;

// Lays a part over a file, if it has room there.
fn lay(file: &mut [u8], place: usize, part: &[u8]) {
    if file.len() < place {
        return;
    }
    if file.len() - place < part.len() {
        return;
    }
    words::copy_part(file, place, part);
}

// A part of a file that is sent: where it is laid, and its bytes.
#[derive(Clone, Copy)]
struct Part<'a> {
    place: usize,
    bytes: &'a [u8],
}

// Parts that stand one after the other (no `cases::input::Records`: a part's head is a place, and one iterator over both would need a trait of heads): of
// each its place, its length, 4 bytes each, and its bytes; up to the first that is cut.
#[derive(Clone, Copy)]
struct Parts<'a> {
    rest: &'a [u8],
}

impl<'a> Iterator for Parts<'a> {
    type Item = Part<'a>;

    ghost remaining = { λ s. at_most (length s.rest.now) };

    fn next(&mut self) -> Option<Part<'a>> {
        let rest = self.rest;
        if rest.len() < 8 {
            return None;
        }
        let end = 8 + words::load32(rest, 4) as usize;
        if rest.len() < end {
            return None;
        }
        self.rest = &rest[end..];
        Some(Part {
            place: words::load32(rest, 0) as usize,
            bytes: &rest[8..end],
        })
    }
}

// Lays all parts that are sent.
fn lay_all(file: &mut [u8], parts: &[u8]) {
    for part in (Parts { rest: parts }) {
        lay(file, part.place, part.bytes);
    }
}

// The first 8 bytes of the digest of the body of a kind, and its length.
fn print_body(to: &mut impl Write, file: &[u8], kind: u32) -> io::Result<()> {
    let body = filereader::body_of(file, kind);
    let mut line = [0u8; 16];
    words::copy_part(&mut line, 0, &sha256::one::digest(body)[0..8]);
    words::store64(&mut line, 8, body.len() as u64);
    cases::print_digits(to, &line)
}

// What reading finds: the answer's number, width and blocks in 4 bytes each, and the batch number, the five places and the file's length
// in 8 each.
fn print_found(to: &mut impl Write, file: &[u8]) -> io::Result<()> {
    let end = file.len();
    let (answer, head, places) = match batchfile::find(file) {
        Ok(found) => (Ok(()), found.head, found.places),
        Err(refusal) => (Err(refusal), FileHead::default(), Places::nowhere(end)),
    };
    let mut line = [0u8; 65];
    line[0] = answer::number_of(answer).to_le_bytes()[0];
    words::store32(&mut line, 1, head.width);
    words::store32(&mut line, 5, head.blocks);
    words::store64(&mut line, 9, head.batch);
    words::store64(&mut line, 17, places.setup as u64);
    words::store64(&mut line, 25, places.head as u64);
    words::store64(&mut line, 33, places.correction as u64);
    words::store64(&mut line, 41, places.key as u64);
    words::store64(&mut line, 49, places.check as u64);
    words::store64(&mut line, 57, end as u64);
    cases::print_digits(to, &line)
}

// A file's length, a seed, and the parts that are laid over what the seed gives: what reading finds, and the bodies of the kinds 0 to 6,
// of which two don't exist.
fn read(to: &mut impl Write, p: &[u8]) -> io::Result<()> {
    if p.len() < 8 {
        return Ok(());
    }
    let n = words::load32(p, 0) as usize;
    if 61472 < n {
        return Ok(());
    }
    let mut all = cases::derived(words::load32(p, 4), 0);
    let file = &mut all[0..n];
    lay_all(file, &p[8..]);
    print_found(to, file)?;
    for kind in 0..7u32 {
        print_body(to, file, kind)?;
    }
    cases::print(to, b"")
}

// Writes a batch to a file: the answer's number, and the digest of the file's range.
fn print_written(
    to: &mut impl Write,
    head: FileHead,
    bodies: Bodies<'_>,
    file: &mut [u8],
) -> io::Result<()> {
    let answer = filewriter::write(head, bodies, file);
    let mut line = [0u8; 33];
    line[0] = answer::number_of(answer).to_le_bytes()[0];
    words::copy_part(&mut line, 1, &sha256::one::digest(file));
    cases::print(to, &line)
}

// Bodies that stand one after the other, by the places where the second and each that follows begin, and the last ends.
fn write_parts(
    to: &mut impl Write,
    p: &[u8],
    bodies: &[u8],
    correction: usize,
    key: usize,
    check: usize,
    end: usize,
    file: &mut [u8],
) -> io::Result<()>
    requires { (40 ≤ length p.now) × (correction ≤ key) × (key ≤ check) × (check ≤ end) × (end ≤ length bodies.now) }
{
    let head = FileHead {
        width: words::load32(p, 0),
        blocks: words::load32(p, 4),
        batch: words::load64(p, 8),
    };
    let bodies = Bodies {
        setup: &bodies[0..correction],
        correction: &bodies[correction..key],
        key: &bodies[key..check],
        check: &bodies[check..end],
    };
    print_written(to, head, bodies, file)
}

// Width, blocks and batch number, the lengths of setup, correction, key, check and file, and a seed. Its first range gives the bodies, one
// after the other, its second the file.
fn write(to: &mut impl Write, p: &[u8]) -> io::Result<()> {
    if p.len() < 40 {
        return Ok(());
    }
    let correction = words::load32(p, 16) as usize;
    let key = correction + words::load32(p, 20) as usize;
    let check = key + words::load32(p, 24) as usize;
    let end = check + words::load32(p, 28) as usize;
    let n = words::load32(p, 32) as usize;
    if 61472 < end {
        return Ok(());
    }
    if 61472 < n {
        return Ok(());
    }
    let bodies = cases::derived(words::load32(p, 36), 0);
    let mut out = cases::derived(words::load32(p, 36), 1);
    write_parts(to, p, &bodies, correction, key, check, end, &mut out[0..n])
}

// Writes what reading a file finds.
fn print_again(to: &mut impl Write, file: &[u8], out: &mut [u8]) -> io::Result<()> {
    let head = batchfile::find(file).map_or(FileHead::default(), |found| found.head);
    let bodies = Bodies {
        setup: filereader::body_of(file, 1),
        correction: filereader::body_of(file, 3),
        key: filereader::body_of(file, 4),
        check: filereader::body_of(file, 5),
    };
    print_written(to, head, bodies, out)
}

// The length of a range, and a file that is sent as to be read: it is read, and what is found is written to the seed's second range.
fn again(to: &mut impl Write, p: &[u8]) -> io::Result<()> {
    if p.len() < 12 {
        return Ok(());
    }
    let n = words::load32(p, 0) as usize;
    let len = words::load32(p, 4) as usize;
    if 61472 < n {
        return Ok(());
    }
    if 61472 < len {
        return Ok(());
    }
    let mut all = cases::derived(words::load32(p, 8), 0);
    let mut out = cases::derived(words::load32(p, 8), 1);
    let file = &mut all[0..len];
    lay_all(file, &p[12..]);
    print_again(to, file, &mut out[0..n])
}

// What a record asks for. (A kind is a byte of the input, matched here alone.)
fn case(to: &mut impl Write, kind: u8, p: &[u8]) -> io::Result<()> {
    match kind {
        1 => read(to, p),
        2 => write(to, p),
        3 => again(to, p),
        _ => Ok(()),
    }
}

// (The mains of the programs stay apart: only a main is handed the runtime, and what it does beside is the program's own case.)
fn main(rt: HostRuntime) -> io::Result<()> {
    let mut buffer = cases::million(0);
    let n = cases::read_full(&mut rt.stdin(), &mut buffer)?;
    let mut to = rt.stdout();
    for record in (Records { rest: &buffer[..n] }) {
        case(&mut to, record.kind, record.payload)?;
    }
    Ok(())
}
