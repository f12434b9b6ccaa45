// Both setups, for any inputs: the receiver's message of masked totals, and the sender's siblings.
#![tactic(auto)]

mod receiver;
mod sender;

ghost use Rattle.setup.specs.Setup.{ReceiverSetup, SenderSetup};

use answer::Refusal;
use tree::Trees;

// The receiver's setup: the totals of its trees, masked by the base pads.
pub fn receiver_setup(
    width: u32,
    roots: &[u8],
    base_pads: &[u8],
    message: &mut [u8],
) -> Result<(), Refusal>
    ensures { ReceiverSetup width roots.now base_pads.now message.old result message.new }
{
    orders::receiver_setup(width, roots.len(), base_pads.len(), message.len())?;
    receiver::write_message(Trees::of(width), roots, base_pads, message);
    Ok(())
}

// The sender's setup: the nodes beside the paths of delta, from the pads that it has and a message.
pub fn sender_setup(
    width: u32,
    delta: &[u8],
    base_pads: &[u8],
    message: &[u8],
    siblings: &mut [u8],
) -> Result<(), Refusal>
    ensures { SenderSetup width delta.now base_pads.now message.now siblings.old result siblings.new }
{
    orders::sender_setup(
        width,
        delta.len(),
        base_pads.len(),
        message.len(),
        siblings.len(),
    )?;
    sender::find_siblings(Trees::of(width), delta, base_pads, message, siblings);
    Ok(())
}
