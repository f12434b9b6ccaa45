// Runs the proved functions on the records of standard input, and prints what each gives, a line a record. The records and the lines to
// be printed are written by reference/. What a program reads and writes no contract can say, so these functions have none; that the lines
// are right is for the comparison to show. (to and p stay two parameters, here and in the other programs: each function takes them apart.)
#![tactic(auto)]

ghost use Rattle.std.specs.Prelude.{◌+◌, ◌≤◌, length};

use answer::Refusal;
use cases::input::Records;
use std::io;
use std::io::Write;

// A key, a counter and a nonce: the block.
fn block(to: &mut impl Write, p: &[u8]) -> io::Result<()> {
    if p.len() != 48 {
        return Ok(());
    }
    let mut key = [0u8; 32];
    words::copy_part(&mut key, 0, &p[0..32]);
    let mut nonce = [0u8; 12];
    words::copy_part(&mut nonce, 0, &p[36..48]);
    cases::print(
        to,
        &chacha20::one::block(&key, words::load32(p, 32), &nonce),
    )
}

// A message: its digest.
fn digest(to: &mut impl Write, p: &[u8]) -> io::Result<()> {
    cases::print(to, &sha256::one::digest(p))
}

// A count and a byte: the digest of so many of it.
fn repeated(to: &mut impl Write, p: &[u8]) -> io::Result<()> {
    if p.len() != 5 {
        return Ok(());
    }
    let n = words::load32(p, 0) as usize;
    if 1000000 < n {
        return Ok(());
    }
    let m = cases::million(p[4]);
    cases::print(to, &sha256::one::digest(&m[..n]))
}

// Four keys in lanes, a counter and a nonce: the four blocks in lanes.
fn four_blocks(to: &mut impl Write, p: &[u8]) -> io::Result<()> {
    if p.len() != 144 {
        return Ok(());
    }
    let mut keys = [0u32; 32];
    words::load_words(&mut keys, &p[0..128]);
    let mut nonce = [0u8; 12];
    words::copy_part(&mut nonce, 0, &p[132..144]);
    let t = chacha20_four::block(&keys, words::load32(p, 128), &nonce);
    let mut out = [0u8; 256];
    words::store_words(&mut out, &t);
    cases::print(to, &out)
}

// Four messages of 32 bytes: their digests.
fn four_digests(to: &mut impl Write, p: &[u8]) -> io::Result<()> {
    if p.len() != 128 {
        return Ok(());
    }
    let mut m = [0u8; 128];
    words::copy_part(&mut m, 0, p);
    cases::print(to, &sha256_four::digest(m))
}

// A key and four columns: their folds.
fn four_folds(to: &mut impl Write, p: &[u8]) -> io::Result<()> {
    let n = p.len();
    if n < 8 {
        return Ok(());
    }
    if n % 4 != 0 {
        return Ok(());
    }
    let t = gf64::table(words::load64(p, 0));
    let folds = gf64::fold_four(&t, (n - 8) / 4, &p[8..]);
    let mut out = [0u8; 32];
    words::store64(&mut out, 0, folds[0]);
    words::store64(&mut out, 8, folds[1]);
    words::store64(&mut out, 16, folds[2]);
    words::store64(&mut out, 24, folds[3]);
    cases::print(to, &out)
}

// A use number and a batch number: the nonce.
fn nonce(to: &mut impl Write, p: &[u8]) -> io::Result<()> {
    if p.len() != 12 {
        return Ok(());
    }
    cases::print(to, &nonces::nonce(words::load32(p, 0), words::load64(p, 4)))
}

// Where a range ends that starts at one place and whose length stands at another; no later than the payload. The `ensures` gives the
// bounds, which are all that its callers need.
fn end_of(p: &[u8], at: usize, start: usize) -> usize
    requires { (at + 4 ≤ length p.now) × (start ≤ length p.now) }
    ensures { (start ≤ result) × (result ≤ length p.now) }
{
    let n = words::load32(p, at) as usize;
    if p.len() - start < n {
        return p.len();
    }
    start + n
}

// An answer's number and the digest of a range.
fn print_answer(to: &mut impl Write, answer: Result<(), Refusal>, s: &[u8]) -> io::Result<()> {
    let mut line = [0u8; 33];
    line[0] = answer::number_of(answer).to_le_bytes()[0];
    words::copy_part(&mut line, 1, &sha256::one::digest(s));
    cases::print(to, &line)
}

// A width, the lengths of roots, base pads and message, and these: the answer, and the message afterwards. (The two setups are lent other ranges,
// so each has a function.)
fn receiver_setup(to: &mut impl Write, p: &[u8]) -> io::Result<()> {
    if p.len() < 16 {
        return Ok(());
    }
    let roots = end_of(p, 4, 16);
    let pads = end_of(p, 8, roots);
    let message = end_of(p, 12, pads);
    let n = message - pads;
    if 8200 < n {
        return Ok(());
    }
    let mut out = [0u8; 8200];
    let last = &mut out[0..n];
    words::copy_part(last, 0, &p[pads..message]);
    let width = words::load32(p, 0);
    let result = setup::receiver_setup(width, &p[16..roots], &p[roots..pads], last);
    print_answer(to, result, last)
}

// A width, the lengths of delta, base pads, message and siblings, and these: the answer, and the siblings afterwards.
fn sender_setup(to: &mut impl Write, p: &[u8]) -> io::Result<()> {
    if p.len() < 20 {
        return Ok(());
    }
    let delta = end_of(p, 4, 20);
    let pads = end_of(p, 8, delta);
    let message = end_of(p, 12, pads);
    let siblings = end_of(p, 16, message);
    let n = siblings - message;
    if 8200 < n {
        return Ok(());
    }
    let mut out = [0u8; 8200];
    let last = &mut out[0..n];
    words::copy_part(last, 0, &p[message..siblings]);
    let width = words::load32(p, 0);
    let result = setup::sender_setup(
        width,
        &p[20..delta],
        &p[delta..pads],
        &p[pads..message],
        last,
    );
    print_answer(to, result, last)
}

// An input of foldprint: its line.
fn line(to: &mut impl Write, p: &[u8]) -> io::Result<()> {
    to.write_all(foldtext::line(p).as_bytes())
}

// What a record asks for. (A kind is a byte of the input, and each program has kinds of its own: an enum of them would be matched here alone.)
fn case(to: &mut impl Write, kind: u8, p: &[u8]) -> io::Result<()> {
    match kind {
        1 => block(to, p),
        2 => digest(to, p),
        3 => repeated(to, p),
        4 => line(to, p),
        5 => four_blocks(to, p),
        6 => four_digests(to, p),
        7 => four_folds(to, p),
        8 => nonce(to, p),
        9 => receiver_setup(to, p),
        10 => sender_setup(to, p),
        _ => Ok(()),
    }
}

// (Apart from other programs' mains: only a main is handed the runtime.)
fn main(rt: HostRuntime) -> io::Result<()> {
    let mut buffer = cases::million(0);
    let n = cases::read_full(&mut rt.stdin(), &mut buffer)?;
    let mut to = rt.stdout();
    for record in (Records { rest: &buffer[..n] }) {
        case(&mut to, record.kind, record.payload)?;
    }
    Ok(())
}
