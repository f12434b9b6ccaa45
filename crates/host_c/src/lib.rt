// What the host program, written in C, calls: each function of `host`, with its clauses word for word. include/softspoken.h declares them.
#![tactic(auto)]

ghost use Rattle.std.specs.Prelude.{◌≡◌};
ghost use Rattle.answer.specs.Answer.{Numbered};
ghost use Rattle.setup.specs.Setup.{ReceiverSetup, SenderSetup};
ghost use Rattle.session.specs.Steps.{OpenSession, ReceiverStart, SenderCorrect, ReceiverAnswer, SenderVerify};
ghost use Rattle.batchfile.specs.Laid.{head_with, bodies_with};
ghost use Rattle.filewriter.specs.Write.{WriteFile};
ghost use Rattle.host.specs.File.{file_read};

use host::FileRead;
use rules::Record;

// The receiver's setup. It returns the answer's number.
#[unsafe(no_mangle)]
pub extern "C" fn softspoken_receiver_setup(
    width: u32,
    roots: &[u8],
    base_pads: &[u8],
    message: &mut [u8],
) -> u32
    ensures { Numbered (λ answer. ReceiverSetup width roots.now base_pads.now message.old answer message.new) result }
{
    host::softspoken_receiver_setup(width, roots, base_pads, message)
}

// The sender's setup. It returns the answer's number.
#[unsafe(no_mangle)]
pub extern "C" fn softspoken_sender_setup(
    width: u32,
    delta: &[u8],
    base_pads: &[u8],
    message: &[u8],
    siblings: &mut [u8],
) -> u32
    ensures { Numbered (λ answer. SenderSetup width delta.now base_pads.now message.now siblings.old answer siblings.new) result }
{
    host::softspoken_sender_setup(width, delta, base_pads, message, siblings)
}

// Opens a session of a width on a lent record, whatever that held. It returns the answer's number.
#[unsafe(no_mangle)]
pub extern "C" fn softspoken_open(rec: &mut Record, width: u32) -> u32
    ensures { Numbered (λ answer. OpenSession rec.old width answer rec.new) result }
{
    host::softspoken_open(rec, width)
}

// The receiver's start on a lent record. It returns the answer's number.
#[unsafe(no_mangle)]
pub extern "C" fn softspoken_receiver_start(
    rec: &mut Record,
    roots: &[u8],
    batch: u64,
    blocks: u32,
    choices: &mut [u8],
    table: &mut [u8],
    correction: &mut [u8],
) -> u32
    ensures { Numbered (λ answer. ReceiverStart rec.old roots.now batch blocks choices.old table.old correction.old answer rec.new choices.new table.new correction.new) result }
{
    host::softspoken_receiver_start(rec, roots, batch, blocks, choices, table, correction)
}

// The sender's correction on a lent record. It returns the answer's number.
#[unsafe(no_mangle)]
pub extern "C" fn softspoken_sender_correct(
    rec: &mut Record,
    siblings: &[u8],
    delta: &[u8],
    batch: u64,
    blocks: u32,
    correction: &[u8],
    table: &mut [u8],
) -> u32
    ensures { Numbered (λ answer. SenderCorrect rec.old siblings.now delta.now batch blocks correction.now table.old answer rec.new table.new) result }
{
    host::softspoken_sender_correct(rec, siblings, delta, batch, blocks, correction, table)
}

// The receiver's answer on a lent record. It returns the answer's number.
#[unsafe(no_mangle)]
pub extern "C" fn softspoken_receiver_answer(
    rec: &mut Record,
    key: u64,
    choices: &[u8],
    table: &[u8],
    message: &mut [u8],
    pads: &mut [u8],
) -> u32
    ensures { Numbered (λ answer. ReceiverAnswer rec.old key choices.now table.now message.old pads.old answer rec.new message.new pads.new) result }
{
    host::softspoken_receiver_answer(rec, key, choices, table, message, pads)
}

// The sender's verify on a lent record. It returns the answer's number.
#[unsafe(no_mangle)]
pub extern "C" fn softspoken_sender_verify(
    rec: &mut Record,
    key: u64,
    table: &[u8],
    delta: &[u8],
    message: &[u8],
    pads: &mut [u8],
) -> u32
    ensures { Numbered (λ answer. SenderVerify rec.old key table.now delta.now message.now pads.old answer rec.new pads.new) result }
{
    host::softspoken_sender_verify(rec, key, table, delta, message, pads)
}

// Reads a batch on file, whatever it holds. Nothing of it is copied.
#[unsafe(no_mangle)]
pub extern "C" fn softspoken_file_read(file: &[u8]) -> FileRead
    ensures { result ≡ file_read file.now }
{
    host::softspoken_file_read(file)
}

// Writes a batch to a file. It returns the answer's number.
#[unsafe(no_mangle)]
pub extern "C" fn softspoken_file_write(
    width: u32,
    blocks: u32,
    batch: u64,
    setup: &[u8],
    correction: &[u8],
    key: &[u8],
    check: &[u8],
    file: &mut [u8],
) -> u32
    ensures { Numbered (λ answer. WriteFile (head_with width blocks batch) (bodies_with setup.now correction.now key.now check.now) file.old answer file.new) result }
{
    host::softspoken_file_write(width, blocks, batch, setup, correction, key, check, file)
}
