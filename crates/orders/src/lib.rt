// The answer of each step, from the record, the numbers and the lengths of the ranges: a chain of its conditions, in the order of the
// definitions.
#![tactic(auto, unfolding(answer::specs::Answer::first_of))]

ghost use Rattle.std.specs.Prelude.{◌≡◌, cond, eqb, Err};
ghost use Rattle.answer.specs.declared.Refusal.TheVariants.{Length};
ghost use Rattle.answer.specs.Answer.{Done, first_of};
ghost use Rattle.rules.specs.Orders.{receiver_setup_order, sender_setup_order, session_order, batch_order, start_order, correct_order, end_order, answer_order, before_check};

use answer::{Refusal, require};
use rules::Record;

// A range of the length named.
fn has(found: usize, named: usize) -> Result<(), Refusal>
    ensures { result ≡ cond (eqb found named) Done (Err Length) }
{
    require(found == named, Refusal::Length)
}

// The answer of opening a session.
pub fn open_session(width: u32) -> Result<(), Refusal>
    ensures { result ≡ first_of (session_order width) }
{
    require(sizes::width_allowed(width), Refusal::Width)
}

// The answer of the receiver's setup.
pub fn receiver_setup(width: u32, roots: usize, pads: usize, message: usize) -> Result<(), Refusal>
    ensures { result ≡ first_of (receiver_setup_order width roots pads message) }
{
    open_session(width)?;
    has(roots, sizes::roots_length(width))?;
    has(pads, sizes::RECEIVER_BASE_PADS_LENGTH)?;
    has(message, sizes::SETUP_MESSAGE_LENGTH)?;
    Ok(())
}

// The answer of the sender's setup.
pub fn sender_setup(
    width: u32,
    delta: usize,
    pads: usize,
    message: usize,
    siblings: usize,
) -> Result<(), Refusal>
    ensures { result ≡ first_of (sender_setup_order width delta pads message siblings) }
{
    open_session(width)?;
    has(delta, sizes::DELTA_LENGTH)?;
    has(pads, sizes::SENDER_BASE_PADS_LENGTH)?;
    has(message, sizes::SETUP_MESSAGE_LENGTH)?;
    has(siblings, sizes::SIBLINGS_LENGTH)?;
    Ok(())
}

// The answer of both steps that open a batch, before their lengths.
fn open_batch(r: Record, batch: u64, blocks: u32) -> Result<(), Refusal>
    ensures { result ≡ first_of (batch_order r batch blocks) }
{
    open_session(r.width)?;
    require(r.stage == rules::READY, Refusal::Stage)?;
    require(rules::batch_follows(r.last, batch), Refusal::Batch)?;
    require(rules::blocks_allowed(blocks), Refusal::Blocks)?;
    Ok(())
}

// The answer of both steps that end one, before their lengths.
fn end_batch(r: Record, key: u64) -> Result<(), Refusal>
    ensures { result ≡ first_of (end_order r key) }
{
    open_session(r.width)?;
    require(r.stage == rules::OPEN, Refusal::Stage)?;
    require(0 < r.last, Refusal::Batch)?;
    require(rules::blocks_allowed(r.blocks), Refusal::Blocks)?;
    require(rules::key_usable(key), Refusal::Key)?;
    Ok(())
}

// The answer of the receiver's start. (Each step's order is a definition of its own, so each has a function.)
pub fn receiver_start(
    r: Record,
    batch: u64,
    blocks: u32,
    roots: usize,
    choices: usize,
    table: usize,
    correction: usize,
) -> Result<(), Refusal>
    ensures { result ≡ first_of (start_order r batch blocks roots choices table correction) }
{
    open_batch(r, batch, blocks)?;
    has(roots, sizes::roots_length(r.width))?;
    has(choices, sizes::column_length(blocks))?;
    has(table, sizes::table_length(blocks))?;
    has(correction, sizes::correction_length(r.width, blocks))?;
    Ok(())
}

// The answer of the sender's correction.
pub fn sender_correct(
    r: Record,
    batch: u64,
    blocks: u32,
    siblings: usize,
    delta: usize,
    correction: usize,
    table: usize,
) -> Result<(), Refusal>
    ensures { result ≡ first_of (correct_order r batch blocks siblings delta correction table) }
{
    open_batch(r, batch, blocks)?;
    has(siblings, sizes::SIBLINGS_LENGTH)?;
    has(delta, sizes::DELTA_LENGTH)?;
    has(correction, sizes::correction_length(r.width, blocks))?;
    has(table, sizes::table_length(blocks))?;
    Ok(())
}

// The answer of the receiver's answer.
pub fn receiver_answer(
    r: Record,
    key: u64,
    choices: usize,
    table: usize,
    message: usize,
    pads: usize,
) -> Result<(), Refusal>
    ensures { result ≡ first_of (answer_order r key choices table message pads) }
{
    end_batch(r, key)?;
    has(choices, sizes::column_length(r.blocks))?;
    has(table, sizes::table_length(r.blocks))?;
    has(message, sizes::CHECK_MESSAGE_LENGTH)?;
    has(pads, sizes::receiver_pads_length(r.blocks))?;
    Ok(())
}

// The answer of the sender's verify, up to its check.
pub fn sender_verify(
    r: Record,
    key: u64,
    table: usize,
    delta: usize,
    message: usize,
    pads: usize,
) -> Result<(), Refusal>
    ensures { result ≡ first_of (before_check r key table delta message pads) }
{
    end_batch(r, key)?;
    has(table, sizes::table_length(r.blocks))?;
    has(delta, sizes::DELTA_LENGTH)?;
    has(message, sizes::CHECK_MESSAGE_LENGTH)?;
    has(pads, sizes::sender_pads_length(r.blocks))?;
    Ok(())
}
