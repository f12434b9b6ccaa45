// The check: the receiver's message of folds, and whether the sender accepts one. Choices, columns and delta are secret; a fold reads
// every byte of a column, at places that only the length decides, and all columns are looked at before the answer. The key and the
// answer are public.
#![tactic(auto)]

ghost use Rattle.std.specs.Prelude.{◌≡◌, List, ℕ, ◌+◌, ◌*◌, ◌%◌, ◌^◌, ◌≤◌, ◌<◌, length, get_or};
ghost use Rattle.words.specs.Bytes.{Bytes, bytes, word64, concat};
ghost use Rattle.words.specs.Bits.{bit_at};
ghost use Rattle.words.specs.Xor.{◌⊕◌};
ghost use Rattle.gf64.specs.Field.{fold_bytes};
ghost use Rattle.gf64.specs.Table.{key_table};
ghost use Rattle.sizes.specs.Sizes.{columns};
ghost use Rattle.tree.specs.Layout.{column_of};
ghost use Rattle.consistency.specs.Message.{check_message, sent_choice, sent_column, choice_side, accepts};

use gf64::Word;

// Lays out four words, 8 bytes each. (A lent range's length is said of the slice, which keeps it.)
fn store_four(out: &mut [u8], x: [u64; 4])
    requires { length out.old ≡ 32 }
    ensures { out.new ≡ concat 4 (λ i. bytes 8 (get_or x i 0)) }
{
    for i in 0..4 {
        words::store64(out, 8 * i, x[i]);
    }
}

// The folds of m columns of len bytes, 8 bytes each, by the table of a key. (Both sides of the check fold by it. What out holds by anything
// but a key's table is left open, as in gf64::fold_four; both callers make theirs by gf64::table. The lengths of a table of columns stand
// in three contracts: a struct of m, len and the columns would be made by each caller from a plain slice, to be taken apart here.)
pub fn fold_columns(m: usize, len: usize, t: &[u32; 512], table: &[u8], out: &mut [u8])
    requires { (m % 4 ≡ 0) × (length table.now ≡ m * len) × (length out.old ≡ 8 * m) }
    ensures { (g : ℕ) → t.now ≡ key_table g → out.new ≡ concat m (λ c. bytes 8 (fold_bytes g (column_of len table.now c))) }
{
    for q in 0..m / 4 {
        let i = 4 * q;
        let x = gf64::fold_four(t, len, &table[i * len..(i + 4) * len]);
        store_four(&mut out[8 * i..8 * i + 32], x);
    }
}

// The receiver's message: the fold of its choices, then those of its m columns.
pub fn write_message(m: usize, key: u64, choices: &[u8], table: &[u8], message: &mut [u8])
    requires { (m % 4 ≡ 0) × (length table.now ≡ m * length choices.now) × (length message.old ≡ 8 + 8 * m) }
    ensures { message.new ≡ check_message m (length choices.now) key choices.now table.now }
{
    words::store64(message, 0, gf64::fold(key, choices));
    let t = gf64::table(key);
    let start: usize = 8;
    let end = start + 8 * m;
    fold_columns(m, choices.len(), &t, table, &mut message[start..end]);
}

// The two sides of the check in column c, added, where folds has those of the sender's columns: 0 where they are equal.
fn difference(folds: &[u8], delta: &[u8], message: &[u8], c: usize) -> u64
    requires { (8 * c + 8 ≤ length folds.now) × (c < 8 * length delta.now) × (8 * c + 16 ≤ length message.now) }
    ensures { result ≡ ((sent_column message.now c ⊕ word64 folds.now (8 * c)) ⊕ choice_side (bit_at delta.now c) (sent_choice message.now)) }
{
    let folded = words::load64(folds, 8 * c);
    let sent = words::load64(message, 8 + 8 * c);
    let choice = words::load64(message, 0);
    let bit = words::bit(delta, c);
    (sent ^ folded).add_bit(bit as u64, choice)
}

// Whether the two sides are equal in each of m columns, from the folds of the sender's. No column is told, and none is left out once one
// differs.
fn all_equal(m: usize, folds: &[u8], delta: &[u8], message: &[u8]) -> bool
    requires { (length folds.now ≡ 8 * m) × (m ≤ 8 * length delta.now) × (length message.now ≡ 8 + 8 * m) }
    ensures { (len g : ℕ) (table : List ℕ) → g < 2 ^ 64 → Bytes table → folds.now ≡ concat m (λ c. bytes 8 (fold_bytes g (column_of len table c))) → result ≡ accepts m len g table delta.now message.now }
{
    let mut all: u64 = 0;
    for c in 0..m {
        all |= difference(folds, delta, message, c);
    }
    all == 0
}

// Whether the sender accepts a message for its table of m columns of len bytes.
pub fn accepts(m: usize, len: usize, key: u64, table: &[u8], delta: &[u8], message: &[u8]) -> bool
    requires { (m % 4 ≡ 0) × (m ≤ columns) × (length table.now ≡ m * len) × (m ≤ 8 * length delta.now) × (length message.now ≡ 8 + 8 * m) }
    ensures { result ≡ accepts m len key table.now delta.now message.now }
{
    let t = gf64::table(key);
    let size = 8 * m;
    let mut folds = [0u8; 8 * sizes::COLUMNS];
    fold_columns(m, len, &t, table, &mut folds[..size]);
    all_equal(m, &folds[..size], delta, message)
}
