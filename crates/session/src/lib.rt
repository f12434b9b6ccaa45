// A session's steps by value: the record goes in and comes back.
#![tactic(auto)]

ghost use Rattle.std.specs.Prelude.{◌≡◌};
ghost use Rattle.tree.specs.Tree.{stream_byte};
ghost use Rattle.tree.specs.Streams.{byte_of};
ghost use Rattle.session.specs.Steps.{OpenSession, ReceiverStart, SenderCorrect, ReceiverAnswer, SenderVerify};

use answer::Refusal;
use rules::Record;
use tree::{Stream, Trees};

// What a step gives back: its answer, and the record after it. The record comes with a refusal too, since a failed check closes it.
#[derive(Clone, Copy)]
pub struct Stepped {
    pub answer: Result<(), Refusal>,
    pub record: Record,
}

// Opens a session of a width, whatever the record held.
pub fn open(r: Record, width: u32) -> Stepped
    ensures { OpenSession r width result.answer result.record }
{
    let answer = orders::open_session(width);
    let record = if answer.is_ok() {
        Record::new(width)
    } else {
        r
    };
    Stepped { answer, record }
}

// What the streams of a batch are drawn by: of each leaf, the stream of that batch.
fn stream_of(batch: u64) -> Stream
    ensures { byte_of result ≡ stream_byte batch }
{
    Stream { batch }
}

// The receiver's start: choices, table and correction of a new batch. (It and the sender's correction lend other ranges to other work, each under
// its own clause.)
pub fn receiver_start(
    r: Record,
    roots: &[u8],
    batch: u64,
    blocks: u32,
    choices: &mut [u8],
    table: &mut [u8],
    correction: &mut [u8],
) -> Stepped
    ensures { ReceiverStart r roots.now batch blocks choices.old table.old correction.old result.answer result.record choices.new table.new correction.new }
{
    let answer = orders::receiver_start(
        r,
        batch,
        blocks,
        roots.len(),
        choices.len(),
        table.len(),
        correction.len(),
    );
    if answer.is_err() {
        return Stepped { answer, record: r };
    }
    let trees = Trees::of(r.width);
    receiver_columns::start(trees, stream_of(batch), roots, choices, table, correction);
    Stepped {
        answer,
        record: r.with_batch(batch, blocks),
    }
}

// The sender's correction: its table of a new batch, from the correction that it received.
pub fn sender_correct(
    r: Record,
    siblings: &[u8],
    delta: &[u8],
    batch: u64,
    blocks: u32,
    correction: &[u8],
    table: &mut [u8],
) -> Stepped
    ensures { SenderCorrect r siblings.now delta.now batch blocks correction.now table.old result.answer result.record table.new }
{
    let answer = orders::sender_correct(
        r,
        batch,
        blocks,
        siblings.len(),
        delta.len(),
        correction.len(),
        table.len(),
    );
    if answer.is_err() {
        return Stepped { answer, record: r };
    }
    let len = sizes::column_length(blocks);
    let trees = Trees::of(r.width);
    sender_columns::correct(
        trees,
        stream_of(batch),
        len,
        siblings,
        delta,
        correction,
        table,
    );
    Stepped {
        answer,
        record: r.with_batch(batch, blocks),
    }
}

// The receiver's answer: the check message under the sender's key, and the receiver's pads.
pub fn receiver_answer(
    r: Record,
    key: u64,
    choices: &[u8],
    table: &[u8],
    message: &mut [u8],
    pads: &mut [u8],
) -> Stepped
    ensures { ReceiverAnswer r key choices.now table.now message.old pads.old result.answer result.record message.new pads.new }
{
    let answer = orders::receiver_answer(
        r,
        key,
        choices.len(),
        table.len(),
        message.len(),
        pads.len(),
    );
    if answer.is_err() {
        return Stepped { answer, record: r };
    }
    consistency::write_message(sizes::COLUMNS, key, choices, table, message);
    pads::receiver_pads(r.blocks as usize, r.last, table, pads);
    Stepped {
        answer,
        record: r.without_batch(),
    }
}

// The sender's verify: the check of the receiver's message under the key that the sender chose, and the sender's pads.
pub fn sender_verify(
    r: Record,
    key: u64,
    table: &[u8],
    delta: &[u8],
    message: &[u8],
    pads: &mut [u8],
) -> Stepped
    ensures { SenderVerify r key table.now delta.now message.now pads.old result.answer result.record pads.new }
{
    let answer = orders::sender_verify(r, key, table.len(), delta.len(), message.len(), pads.len());
    if answer.is_err() {
        return Stepped { answer, record: r };
    }
    let len = sizes::column_length(r.blocks);
    if !consistency::accepts(sizes::COLUMNS, len, key, table, delta, message) {
        return Stepped {
            answer: Err(Refusal::Check),
            record: r.closed(),
        };
    }
    pads::sender_pads(r.blocks as usize, r.last, table, delta, pads);
    Stepped {
        answer,
        record: r.without_batch(),
    }
}
