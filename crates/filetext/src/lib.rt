// The text that the program batchprint prints, as a function of what it read.
#![tactic(auto)]

ghost use Rattle.std.specs.Prelude.{◌++◌};
ghost use Rattle.words.specs.Pieces.{Room, Laid};
ghost use Rattle.batchfile.specs.File.{Taken};
ghost use Rattle.foldtext.specs.Line.{hex_digits, Holds};
ghost use Rattle.filetext.specs.Text.{decimal, hex_of, head_line, digest_line, body_line, refused_line, body_lines, text_of};

use batchfile::FileHead;
use foldtext::Text;

// Lays a number in decimal over out from a place on, its last digit after the others, and returns the place after it. So do the functions
// that follow, each with a piece of its own.
fn lay_decimal(out: &mut [u8], at: usize, x: u64) -> usize
    requires { Room out.old at (decimal x) }
    ensures { Laid out.old at (decimal x) out.new result }
{
    if x < 10 {
        return words::lay(out, at, &[b'0' + x as u8]);
    }
    let next = lay_decimal(out, at, x / 10);
    words::lay(out, next, &[b'0' + (x % 10) as u8])
}

// A number after its name.
fn lay_named(out: &mut [u8], at: usize, name: &[u8], x: u64) -> usize
    requires { Room out.old at (name.now ++ decimal x) }
    ensures { Laid out.old at (name.now ++ decimal x) out.new result }
{
    let next = words::lay(out, at, name);
    lay_decimal(out, next, x)
}

// A byte in two hexadecimal digits.
fn lay_byte(out: &mut [u8], at: usize, b: u8) -> usize
    requires { Room out.old at (hex_digits 2 b) }
    ensures { Laid out.old at (hex_digits 2 b) out.new result }
{
    let high = foldtext::digit((b / 16) as u64);
    let low = foldtext::digit((b % 16) as u64);
    words::lay(out, at, &[high, low])
}

// Some bytes so.
fn lay_hex(out: &mut [u8], at: usize, s: &[u8]) -> usize
    requires { Room out.old at (hex_of s.now) }
    ensures { Laid out.old at (hex_of s.now) out.new result }
{
    let mut next = at;
    for b in s {
        next = lay_byte(out, next, *b);
    }
    next
}

// The line of a head.
fn lay_head(out: &mut [u8], at: usize, head: FileHead) -> usize
    requires { Room out.old at (head_line head) }
    ensures { Laid out.old at (head_line head) out.new result }
{
    let mut next = lay_named(out, at, b"width ", head.width as u64);
    next = lay_named(out, next, b" blocks ", head.blocks as u64);
    next = lay_named(out, next, b" batch ", head.batch);
    words::lay(out, next, b"\n")
}

// The end of a body's line: its digest.
fn lay_digest(out: &mut [u8], at: usize, body: &[u8]) -> usize
    requires { Room out.old at (digest_line body.now) }
    ensures { Laid out.old at (digest_line body.now) out.new result }
{
    let mut next = words::lay(out, at, b" sha256 ");
    next = lay_hex(out, next, &sha256::one::digest(body));
    words::lay(out, next, b"\n")
}

// The line of a body. (The kind is the number that is printed.)
fn lay_body(out: &mut [u8], at: usize, kind: u32, body: &[u8]) -> usize
    requires { Room out.old at (body_line kind body.now) }
    ensures { Laid out.old at (body_line kind body.now) out.new result }
{
    let mut next = lay_named(out, at, b"kind ", kind as u64);
    next = lay_named(out, next, b" length ", body.len() as u64);
    lay_digest(out, next, body)
}

// The line of a refusal.
fn lay_refused(out: &mut [u8], at: usize, number: u32) -> usize
    requires { Room out.old at (refused_line number) }
    ensures { Laid out.old at (refused_line number) out.new result }
{
    let next = lay_named(out, at, b"refused ", number as u64);
    words::lay(out, next, b"\n")
}

// The lines of the five bodies of a file that is taken.
fn lay_bodies(out: &mut [u8], at: usize, file: &[u8]) -> usize
    requires { Taken file.now × Room out.old at (body_lines file.now) }
    ensures { Laid out.old at (body_lines file.now) out.new result }
{
    let mut next = at;
    for kind in 1..6 {
        next = lay_body(out, next, kind, filereader::body_of(file, kind));
    }
    next
}

// The text, from the start on.
fn lay_text(out: &mut [u8], input: &[u8]) -> usize
    requires { Room out.old 0 (text_of input.now) }
    ensures { Laid out.old 0 (text_of input.now) out.new result }
{
    if batchfile::LONGEST_FILE < input.len() {
        return words::lay(out, 0, b"too long\n");
    }
    match batchfile::find(input) {
        Ok(found) => {
            let next = lay_head(out, 0, found.head);
            lay_bodies(out, next, input)
        }
        Err(refusal) => lay_refused(out, 0, answer::number_of(Err(refusal))),
    }
}

// The text of what was read, of any length.
pub fn text_of(input: &[u8]) -> Text<512>
    ensures { Holds result (text_of input.now) }
{
    let mut bytes = [0u8; 512];
    let len = lay_text(&mut bytes, input);
    Text { len, bytes }
}
