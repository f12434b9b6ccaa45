// The rows of a table of 128 columns, a block of 64 at a time. The bit of row j in column c has two places: in the column that of j, in the
// row value that of c (paper 01: byte j div 8, weight 2^(j mod 8)). Both are carried along, weight by weight and then to the next byte, so no
// number of a row or of a column is divided by 8 or shifted (paper 02, note 2). A word holds eight bytes of a column, the bits of 64 rows.
// Eight such words change bits with each other, by shifts and masks, until rows stand where columns stood: first weights, then bytes.
#![tactic(auto)]

ghost use Rattle.std.specs.Prelude.{◌≡◌, [], ◌∷◌, ℕ, ◌+◌, ◌*◌, ◌≤◌, ◌<◌, length, set, get_or};
ghost use Rattle.words.specs.Bytes.{concat};
ghost use Rattle.sizes.specs.Sizes.{columns};
ghost use Rattle.rows.specs.Row.{row_of};
ghost use Rattle.rows.specs.Place.{Stands};
ghost use Rattle.rows.specs.Gather.{Evens, Swapped, Staged, Turned, column_words, side_by_side, stores, store_bytes, Gathered, RowsLaid};

use std::array::from_fn;

// The masks of a turn whose digits are those of a weight's exponent: words of eight columns become words of rows of eight weights.
const WEIGHTS: [u64; 3] = [
    0x0f0f_0f0f_0f0f_0f0f,
    0x3333_3333_3333_3333,
    0x5555_5555_5555_5555,
];

// And of one whose digits are those of a byte's number in its word.
const BYTES: [u64; 3] = [
    0x0000_0000_ffff_ffff,
    0x0000_ffff_0000_ffff,
    0x00ff_00ff_00ff_00ff,
];

// Two words that changed bits. A tuple would be no plainer: the names say which word is which.
#[derive(Clone, Copy)]
struct Pair {
    first: u64,
    second: u64,
}

// The bits of b at a mask change places with those of a that are s higher: where two bits differ, both turn over.
fn swap(a: u64, b: u64, s: u32, mask: u64) -> Pair
    requires { (0 < s) × (s < 64) × Evens s mask }
    ensures { Swapped s (a ∷ b ∷ []) (result.first ∷ result.second ∷ []) }
{
    let moved = ((a >> s) ^ b) & mask;
    Pair {
        first: a ^ (moved << s),
        second: b ^ moved,
    }
}

// A swap for each two words that are four apart. They come to stand side by side, so that the next stage meets others.
fn stage(v: [u64; 8], s: u32, mask: u64) -> [u64; 8]
    requires { (0 < s) × (s < 64) × Evens s mask }
    ensures { Staged s v result }
{
    let a = swap(v[0], v[4], s, mask);
    let b = swap(v[1], v[5], s, mask);
    let c = swap(v[2], v[6], s, mask);
    let d = swap(v[3], v[7], s, mask);
    [
        a.first, a.second, b.first, b.second, c.first, c.second, d.first, d.second,
    ]
}

// Eight words: their numbers and three digits of the numbers of their bits change places, in a stage for each digit. The last digit moves a bit
// by `unit`; a mask has the bits at which its digit is 0.
fn turn(v: [u64; 8], unit: u32, masks: [u64; 3]) -> [u64; 8]
    requires { (0 < unit) × (unit < 16) × Evens (4 * unit) (get_or masks 0 0) × Evens (2 * unit) (get_or masks 1 0) × Evens unit (get_or masks 2 0) }
    ensures { Turned unit v result }
{
    let by4 = stage(v, 4 * unit, masks[0]);
    let by2 = stage(by4, 2 * unit, masks[1]);
    stage(by2, unit, masks[2])
}

// A word of each of the eight columns that share a byte of a row value, from a place of the first on. From weight to weight that place is
// carried along.
fn column_words(table: &[u8], len: usize, first: usize) -> [u64; 8]
    requires { (first + 7 * len + 8 ≤ length table.now) × (len ≤ 65536) }
    ensures { result ≡ column_words table.now len first }
{
    let mut v = [0u64; 8];
    let mut from = first;
    for weight in 0..8 {
        v[weight] = words::load64(table, from);
        from += len;
    }
    v
}

// Lays eight words 16 places apart.
fn put_words(w: &mut [u64; 128], i: usize, v: [u64; 8])
    requires { i < 16 }
    ensures { w.new ≡ stores set 8 w.old i v }
{
    for c in 0..8 {
        w[16 * c + i] = v[c];
    }
}

// The words of all columns from byte `at` on, weights turned. Carried along from eight columns to the next eight: their byte of a row value,
// and where the first of them has its byte `at`. The words are lent: as a result they would be copied, and the library needs no memcpy.
fn gather(len: usize, table: &[u8], at: usize, w: &mut [u64; 128])
    requires { (length table.now ≡ 128 * len) × (at + 8 ≤ len) × (len ≤ 65536) }
    ensures { Gathered len table.now at w.new }
{
    let mut from = at;
    for byte in 0..16 {
        put_words(w, byte, turn(column_words(table, len, from), 1, WEIGHTS));
        from += 8 * len;
    }
}

// Eight words that stand side by side.
fn eight_words(w: &[u64; 128], at: usize) -> [u64; 8]
    requires { at + 8 ≤ 128 }
    ensures { result ≡ side_by_side w.now at }
{
    from_fn(|c| w[at + c])
}

// Lays eight words as bytes, 128 bytes apart.
fn put_bytes(rows: &mut [u8], i: usize, v: [u64; 8])
    requires { (i < 16) × (length rows.old ≡ 1024) }
    ensures { rows.new ≡ stores store_bytes 8 rows.old i v }
{
    for c in 0..8 {
        words::store64(rows, 8 * (16 * c + i), v[c]);
    }
}

// The rows of gathered words. Eight words side by side have eight bytes of a row value, each of eight rows of one weight: with words and bytes
// turned, each word is half of a row.
fn lay(w: &[u64; 128], rows: &mut [u8])
    requires { length rows.old ≡ 1024 }
    ensures { RowsLaid w.now rows.new }
{
    for i in 0..16 {
        put_bytes(rows, i, turn(eight_words(w, 8 * i), 8, BYTES));
    }
}

// The 64 rows of a table of columns of len bytes from that row on which stands at byte `at`, weight 1. (len and table stay apart: a type that
// says that they fit would be made and taken apart at each call.)
pub fn block_rows(len: usize, table: &[u8], at: usize, rows: &mut [u8])
    requires { (length table.now ≡ 128 * len) × (at + 8 ≤ len) × (len ≤ 65536) × (length rows.old ≡ 1024) }
    ensures { (j : ℕ) → Stands j at 0 → rows.new ≡ concat 64 (λ i. row_of columns len table.now (j + i)) }
{
    let mut w = [0u64; 128];
    gather(len, table, at, &mut w);
    lay(&w, rows);
}
