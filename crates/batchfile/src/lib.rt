// A batch on file: whether it may be read, its head, and where its bodies begin. Nothing of it is copied.
#![tactic(auto)]

mod contents;
pub mod values;

ghost use Rattle.std.specs.Prelude.{◌≡◌, true, ◌+◌, ◌-◌, ◌≤◌, length};
ghost use Rattle.words.specs.Bytes.{little_endian, part};
ghost use Rattle.sizes.specs.Sizes.{contents_length};
ghost use Rattle.rules.specs.Orders.{head_right};
ghost use Rattle.batchfile.specs.File.{head_in, nowhere, longest_file, kind_number, KindOf, Finds};

use answer::{Refusal, require};
use contents::Contents;

// The kinds of bodies, in the order in which they stand.
#[derive(Clone, Copy, PartialEq, Eq, Debug)]
pub enum Kind {
    Setup = 1,
    Head = 2,
    Correction = 3,
    Key = 4,
    Check = 5,
}

impl Kind {
    fn number(self) -> usize
        ensures { result ≡ kind_number self }
    {
        self as usize
    }
}

// A number that is no kind's is given back.
impl TryFrom<u32> for Kind {
    type Error = u32;

    ghost try_from_gives = { KindOf };

    fn try_from(number: u32) -> Result<Self, u32> {
        match number {
            1 => Ok(Kind::Setup),
            2 => Ok(Kind::Head),
            3 => Ok(Kind::Correction),
            4 => Ok(Kind::Key),
            5 => Ok(Kind::Check),
            other => Err(other),
        }
    }
}

// What a head says: the width, the blocks and the batch number. Its default is a head of zeros.
#[derive(Clone, Copy, Default)]
pub struct FileHead {
    pub width: u32,
    pub blocks: u32,
    pub batch: u64,
}

impl FileHead {
    // What a head's body says: the batch number has all but two bytes.
    fn of(body: &[u8]) -> Self
        requires { head_right (length body.now) ≡ true }
        ensures { result ≡ head_in body.now }
    {
        let batch = if body.len() == sizes::SHORT_HEAD_LENGTH {
            words::load32(body, 2) as u64
        } else {
            words::load64(body, 2)
        };
        FileHead {
            width: body[0] as u32,
            blocks: body[1] as u32,
            batch,
        }
    }
}

// Where the five bodies begin.
#[derive(Clone, Copy)]
pub struct Places {
    pub setup: usize,
    pub head: usize,
    pub correction: usize,
    pub key: usize,
    pub check: usize,
}

impl Places {
    // All at one: those of a file that is refused are at its end.
    pub fn nowhere(end: usize) -> Self
        ensures { result ≡ nowhere end }
    {
        Places {
            setup: end,
            head: end,
            correction: end,
            key: end,
            check: end,
        }
    }
}

// What reading finds in a file that is taken.
#[derive(Clone, Copy)]
pub struct BatchFile {
    pub head: FileHead,
    pub places: Places,
}

// The length of the contents, which is where an entry after so many others begins, too.
pub fn contents_length(count: usize) -> usize
    requires { count ≤ 5 }
    ensures { result ≡ contents_length count }
{
    4 + 12 * count
}

// Reads a file, whatever it holds.
#[tactic(auto, unfolding(crate::specs::File::read_answer, answer::specs::Answer::first_of))]
pub fn find(file: &[u8]) -> Result<BatchFile, Refusal>
    ensures { Finds file.now result }
{
    let contents = Contents::of(file).ok_or(Refusal::Contents)?;
    require(
        values::head_right(contents.length_of(Kind::Head)),
        Refusal::Body,
    )?;
    let head = contents.head();
    contents.values_answer(head)?;
    Ok(BatchFile {
        head,
        places: contents.places(),
    })
}

// No file that is read is longer.
pub const LONGEST_FILE: usize = 25562;

// A constant has no contract of its own: this holds it to the definition.
pub fn longest_file() -> usize
    ensures { result ≡ longest_file }
{
    LONGEST_FILE
}
