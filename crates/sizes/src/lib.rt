// Widths, columns, trees, and the length of every byte range that a step is lent, by the names of the definitions.
#![tactic(auto)]

ghost use Rattle.std.specs.Prelude.{◌≡◌, [], ◌∷◌};
ghost use Rattle.sizes.specs.Sizes.{width_allowed, columns, trees_of, delta_length, receiver_base_pads_length, sender_base_pads_length, setup_message_length, siblings_length, check_message_length, column_length, roots_length, table_length, correction_length, receiver_pads_length, sender_pads_length, head_length, short_head_length, key_length};

pub const COLUMNS: usize = 128;

pub const DELTA_LENGTH: usize = COLUMNS / 8;

pub const RECEIVER_BASE_PADS_LENGTH: usize = 64 * COLUMNS;

pub const SENDER_BASE_PADS_LENGTH: usize = 32 * COLUMNS;

pub const SETUP_MESSAGE_LENGTH: usize = 64 * COLUMNS;

pub const SIBLINGS_LENGTH: usize = 32 * COLUMNS;

pub const CHECK_MESSAGE_LENGTH: usize = 8 * (1 + COLUMNS);

pub const HEAD_LENGTH: usize = 10;

pub const SHORT_HEAD_LENGTH: usize = 6;

pub const KEY_LENGTH: usize = 8;

// A constant has no contract of its own: this holds all of them to the definitions.
pub fn constants() -> [usize; 10]
    ensures { result ≡ columns ∷ delta_length ∷ receiver_base_pads_length ∷ sender_base_pads_length ∷ setup_message_length ∷ siblings_length ∷ check_message_length ∷ head_length ∷ short_head_length ∷ key_length ∷ [] }
{
    [
        COLUMNS,
        DELTA_LENGTH,
        RECEIVER_BASE_PADS_LENGTH,
        SENDER_BASE_PADS_LENGTH,
        SETUP_MESSAGE_LENGTH,
        SIBLINGS_LENGTH,
        CHECK_MESSAGE_LENGTH,
        HEAD_LENGTH,
        SHORT_HEAD_LENGTH,
        KEY_LENGTH,
    ]
}

// Whether a width is allowed.
#[tactic(auto, unfolding(crate::specs::Sizes::width_allowed))]
pub fn width_allowed(width: u32) -> bool
    ensures { result ≡ width_allowed width }
{
    matches!(width, 1 | 2 | 4 | 8)
}

// The trees of a width: none where the width is 0.
pub fn trees_of(width: u32) -> usize
    ensures { result ≡ trees_of width }
{
    if width == 0 {
        0
    } else {
        COLUMNS / width as usize
    }
}

pub fn roots_length(width: u32) -> usize
    ensures { result ≡ roots_length width }
{
    32 * trees_of(width)
}

pub fn column_length(blocks: u32) -> usize
    ensures { result ≡ column_length blocks }
{
    8 * (blocks as usize + 1)
}

pub fn table_length(blocks: u32) -> usize
    ensures { result ≡ table_length blocks }
{
    COLUMNS * column_length(blocks)
}

// Of a width that has no tree there is nothing to correct.
pub fn correction_length(width: u32, blocks: u32) -> usize
    ensures { result ≡ correction_length width blocks }
{
    trees_of(width).saturating_sub(1) * column_length(blocks)
}

pub fn receiver_pads_length(blocks: u32) -> usize
    ensures { result ≡ receiver_pads_length blocks }
{
    32 * (64 * (blocks as usize))
}

pub fn sender_pads_length(blocks: u32) -> usize
    ensures { result ≡ sender_pads_length blocks }
{
    64 * (64 * (blocks as usize))
}
