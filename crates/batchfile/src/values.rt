// The answer that the values of a head, the lengths of the bodies and the key get. Each refusal returns at once: a file is read in some
// nanoseconds, and a chain that went on after a refusal took a third more.
#![tactic(auto, unfolding(answer::specs::Answer::first_of))]

ghost use Rattle.std.specs.Prelude.{◌≡◌, length};
ghost use Rattle.words.specs.Bytes.{little_endian};
ghost use Rattle.sizes.specs.Sizes.{key_length};
ghost use Rattle.answer.specs.Answer.{first_of};
ghost use Rattle.rules.specs.Orders.{key_usable, head_order, head_right, setup_right, bodies_right, file_order};

use crate::FileHead;
use answer::{Refusal, require};

// The answer of the head's values.
fn head_answer(head: FileHead) -> Result<(), Refusal>
    ensures { result ≡ first_of (head_order head.width head.batch head.blocks) }
{
    require(sizes::width_allowed(head.width), Refusal::Width)?;
    require(head.batch != 0, Refusal::Batch)?;
    require(rules::blocks_allowed(head.blocks), Refusal::Blocks)?;
    Ok(())
}

// Whether a head has one of its two lengths.
pub fn head_right(head: usize) -> bool
    ensures { result ≡ head_right head }
{
    matches!(head, sizes::HEAD_LENGTH | sizes::SHORT_HEAD_LENGTH)
}

// Whether a setup has its length where it is present. (Presence and length stay apart, here and in what follows, as the definitions `setup_right`
// and `file_order` have them.)
fn setup_right(present: bool, setup: usize) -> bool
    ensures { result ≡ setup_right present setup }
{
    !present || setup == sizes::SETUP_MESSAGE_LENGTH
}

// Whether each body but the head has its length. The correction's comes last, as it takes a division.
fn bodies_right(
    head: FileHead,
    present: bool,
    setup: usize,
    correction: usize,
    key: usize,
    check: usize,
) -> bool
    ensures { result ≡ bodies_right head.width head.blocks present setup correction key check }
{
    setup_right(present, setup)
        && key == sizes::KEY_LENGTH
        && check == sizes::CHECK_MESSAGE_LENGTH
        && correction == sizes::correction_length(head.width, head.blocks)
}

// Whether the number in a key's body is usable.
fn key_right(key: &[u8]) -> bool
    requires { length key.now ≡ key_length }
    ensures { result ≡ key_usable (little_endian key.now) }
{
    rules::key_usable(words::load64(key, 0))
}

// The answer of all three. The key comes last: only a body of its length holds a key.
pub fn answer(
    head: FileHead,
    present: bool,
    setup: usize,
    correction: usize,
    key: &[u8],
    check: usize,
) -> Result<(), Refusal>
    ensures { result ≡ first_of (file_order head.width head.batch head.blocks present setup correction (length key.now) check (little_endian key.now)) }
{
    head_answer(head)?;
    require(
        bodies_right(head, present, setup, correction, key.len(), check),
        Refusal::Body,
    )?;
    require(key_right(key), Refusal::Key)?;
    Ok(())
}
