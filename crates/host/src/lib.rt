// What a host program calls: numbers and byte ranges. The crate host_c exports each of these functions to C, with the same clauses, and
// include/softspoken.h declares them there.
#![tactic(auto)]

ghost use Rattle.std.specs.Prelude.{◌≡◌};
ghost use Rattle.answer.specs.Answer.{Numbered};
ghost use Rattle.setup.specs.Setup.{ReceiverSetup, SenderSetup};
ghost use Rattle.session.specs.Steps.{OpenSession, ReceiverStart, SenderCorrect, ReceiverAnswer, SenderVerify};
ghost use Rattle.batchfile.specs.Laid.{head_with, bodies_with};
ghost use Rattle.filewriter.specs.Write.{WriteFile};
ghost use Rattle.host.specs.File.{file_read};

use batchfile::{BatchFile, FileHead, Places};
use filewriter::Bodies;
use rules::Record;

// The receiver's setup. It returns the answer's number.
pub fn softspoken_receiver_setup(
    width: u32,
    roots: &[u8],
    base_pads: &[u8],
    message: &mut [u8],
) -> u32
    ensures { Numbered (λ answer. ReceiverSetup width roots.now base_pads.now message.old answer message.new) result }
{
    let answer = setup::receiver_setup(width, roots, base_pads, message);
    answer::number_of(answer)
}

// The sender's setup. It returns the answer's number.
pub fn softspoken_sender_setup(
    width: u32,
    delta: &[u8],
    base_pads: &[u8],
    message: &[u8],
    siblings: &mut [u8],
) -> u32
    ensures { Numbered (λ answer. SenderSetup width delta.now base_pads.now message.now siblings.old answer siblings.new) result }
{
    let answer = setup::sender_setup(width, delta, base_pads, message, siblings);
    answer::number_of(answer)
}

// Opens a session of a width on a lent record, whatever that held. It returns the answer's number. (The steps stay five functions that hand their
// ranges on: C calls each by its name.)
pub fn softspoken_open(rec: &mut Record, width: u32) -> u32
    ensures { Numbered (λ answer. OpenSession rec.old width answer rec.new) result }
{
    let step = session::open(*rec, width);
    *rec = step.record;
    answer::number_of(step.answer)
}

// The receiver's start on a lent record. It returns the answer's number.
pub fn softspoken_receiver_start(
    rec: &mut Record,
    roots: &[u8],
    batch: u64,
    blocks: u32,
    choices: &mut [u8],
    table: &mut [u8],
    correction: &mut [u8],
) -> u32
    ensures { Numbered (λ answer. ReceiverStart rec.old roots.now batch blocks choices.old table.old correction.old answer rec.new choices.new table.new correction.new) result }
{
    let step = session::receiver_start(*rec, roots, batch, blocks, choices, table, correction);
    *rec = step.record;
    answer::number_of(step.answer)
}

// The sender's correction on a lent record. It returns the answer's number.
pub fn softspoken_sender_correct(
    rec: &mut Record,
    siblings: &[u8],
    delta: &[u8],
    batch: u64,
    blocks: u32,
    correction: &[u8],
    table: &mut [u8],
) -> u32
    ensures { Numbered (λ answer. SenderCorrect rec.old siblings.now delta.now batch blocks correction.now table.old answer rec.new table.new) result }
{
    let step = session::sender_correct(*rec, siblings, delta, batch, blocks, correction, table);
    *rec = step.record;
    answer::number_of(step.answer)
}

// The receiver's answer on a lent record. It returns the answer's number.
pub fn softspoken_receiver_answer(
    rec: &mut Record,
    key: u64,
    choices: &[u8],
    table: &[u8],
    message: &mut [u8],
    pads: &mut [u8],
) -> u32
    ensures { Numbered (λ answer. ReceiverAnswer rec.old key choices.now table.now message.old pads.old answer rec.new message.new pads.new) result }
{
    let step = session::receiver_answer(*rec, key, choices, table, message, pads);
    *rec = step.record;
    answer::number_of(step.answer)
}

// The sender's verify on a lent record. It returns the answer's number.
pub fn softspoken_sender_verify(
    rec: &mut Record,
    key: u64,
    table: &[u8],
    delta: &[u8],
    message: &[u8],
    pads: &mut [u8],
) -> u32
    ensures { Numbered (λ answer. SenderVerify rec.old key table.now delta.now message.now pads.old answer rec.new pads.new) result }
{
    let step = session::sender_verify(*rec, key, table, delta, message, pads);
    *rec = step.record;
    answer::number_of(step.answer)
}

// What reading a file gives back, as C has it: the answer's number, the head's values, where each body begins, and the file's end. A body reaches from its
// place to the next.
#[repr(C)]
#[derive(Clone, Copy)]
pub struct FileRead {
    pub answer: u32,
    pub width: u32,
    pub blocks: u32,
    pub batch: u64,
    pub setup: u64,
    pub head: u64,
    pub correction: u64,
    pub key: u64,
    pub check: u64,
    pub end: u64,
}

// Reads a batch on file, whatever it holds. Nothing of it is copied.
pub fn softspoken_file_read(file: &[u8]) -> FileRead
    ensures { result ≡ file_read file.now }
{
    let (answer, BatchFile { head, places }) = match batchfile::find(file) {
        Ok(found) => (Ok(()), found),
        Err(refusal) => (
            Err(refusal),
            BatchFile {
                head: FileHead::default(),
                places: Places::nowhere(file.len()),
            },
        ),
    };
    FileRead {
        answer: answer::number_of(answer),
        width: head.width,
        blocks: head.blocks,
        batch: head.batch,
        setup: places.setup as u64,
        head: places.head as u64,
        correction: places.correction as u64,
        key: places.key as u64,
        check: places.check as u64,
        end: file.len() as u64,
    }
}

// Writes a batch to a file. It returns the answer's number.
pub fn softspoken_file_write(
    width: u32,
    blocks: u32,
    batch: u64,
    setup: &[u8],
    correction: &[u8],
    key: &[u8],
    check: &[u8],
    file: &mut [u8],
) -> u32
    ensures { Numbered (λ answer. WriteFile (head_with width blocks batch) (bodies_with setup.now correction.now key.now check.now) file.old answer file.new) result }
{
    let head = FileHead {
        width,
        blocks,
        batch,
    };
    let bodies = Bodies {
        setup,
        correction,
        key,
        check,
    };
    let answer = filewriter::write(head, bodies, file);
    answer::number_of(answer)
}
