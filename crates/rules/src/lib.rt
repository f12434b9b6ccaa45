// The rules of a session, in numbers only: its record, how a step changes it, and which batch numbers, blocks and keys are allowed. The order
// in which each step refuses is a definition here; the crate `orders` gives the answers.
#![tactic(auto)]

ghost use Rattle.std.specs.Prelude.{◌≡◌};
ghost use Rattle.rules.specs.Orders.{new_record, with_batch, without_batch, closed, blocks_allowed, batch_follows, key_usable};

// The record of a session: its width, the blocks of the open batch, the last batch number (0 for none), and the stage (0 ready, 1 open,
// 2 closed). It may hold any numbers. In this order C lays it out without a hole before its end.
#[repr(C)]
#[derive(Clone, Copy)]
pub struct Record {
    pub width: u32,
    pub blocks: u32,
    pub last: u64,
    pub stage: u32,
}

// A stage is a number and no enum: C keeps the record, and may hand over one that holds any.
pub const READY: u32 = 0;

pub const OPEN: u32 = 1;

const CLOSED: u32 = 2;

pub const MOST_BLOCKS: u32 = 15;

impl Record {
    // The record of a session that is opened.
    pub fn new(width: u32) -> Self
        ensures { result ≡ new_record width }
    {
        Record {
            width,
            blocks: 0,
            last: 0,
            stage: READY,
        }
    }

    // After a batch is opened.
    pub fn with_batch(self, batch: u64, blocks: u32) -> Self
        ensures { result ≡ with_batch self batch blocks }
    {
        Record {
            blocks,
            last: batch,
            stage: OPEN,
            ..self
        }
    }

    // After it is ended.
    pub fn without_batch(self) -> Self
        ensures { result ≡ without_batch self }
    {
        Record {
            blocks: 0,
            stage: READY,
            ..self
        }
    }

    // After its check failed.
    pub fn closed(self) -> Self
        ensures { result ≡ closed self }
    {
        Record {
            stage: CLOSED,
            ..self
        }
    }
}

// Whether a batch may have so many blocks.
pub fn blocks_allowed(blocks: u32) -> bool
    ensures { result ≡ blocks_allowed blocks }
{
    (1..=MOST_BLOCKS).contains(&blocks)
}

// Whether a batch number may follow the last.
pub fn batch_follows(last: u64, batch: u64) -> bool
    ensures { result ≡ batch_follows last batch }
{
    0 < batch && last < batch
}

// Whether a key is usable: with 0 the fold sees only the last word, and with 1 it can't tell one word from another.
pub fn key_usable(key: u64) -> bool
    ensures { result ≡ key_usable key }
{
    2 <= key
}
