// The pads of the rows of a table: each is a hash of a row value.
#![tactic(auto)]

ghost use Rattle.std.specs.Prelude.{◌≡◌, ◌++◌, ℕ, List, ◌+◌, ◌*◌, ◌≤◌, length};
ghost use Rattle.words.specs.Bytes.{part, concat};
ghost use Rattle.sizes.specs.Sizes.{columns, delta_length, column_length, table_length, receiver_pads_length, sender_pads_length};
ghost use Rattle.rows.specs.Row.{row_of};
ghost use Rattle.pads.specs.Pads.{pad_input, pad_of, pair_of, receiver_pads, sender_pads};
ghost use Rattle.pads.specs.Values.{ValuesFit, of_values};
ghost use Rattle.pads.specs.Lengths.{pad-length, pair-length};
ghost use Rattle.std.proofs.Common.{lit≤};

// The head of each hashed block.
const LETTERS: [u8; 4] = *b"PADS";

// A block has so many groups of four rows.
const GROUPS: usize = 16;

// The 32 bytes that a pad is the hash of.
fn write_input(out: &mut [u8], batch: u64, row: u32, value: &[u8])
    requires { (length out.old ≡ 32) × (length value.now ≡ 16) }
    ensures { out.new ≡ pad_input batch row value.now }
{
    words::copy_part(out, 0, &LETTERS);
    words::store64(out, 4, batch);
    words::store32(out, 12, row);
    words::copy_part(out, 16, value);
}

// The inputs of the pads of four rows, from their values. (The number of the first row and the values stay apart: values are cut out of a
// block's, and their number goes up with them.)
fn four_inputs(out: &mut [u8; 128], batch: u64, first: u32, values: &[u8])
    requires { ValuesFit 4 first values.now }
    ensures { out.new ≡ of_values 4 (pad_input batch) first values.now }
{
    for i in 0..4 {
        let start = i * 32;
        let from = i * 16;
        write_input(
            &mut out[start..start + 32],
            batch,
            first + i as u32,
            &values[from..from + 16],
        );
    }
}

// The pads of four rows, hashed at once.
fn four_pads(batch: u64, first: u32, values: &[u8], pads: &mut [u8])
    requires { ValuesFit 4 first values.now × (length pads.old ≡ 128) }
    ensures { pads.new ≡ of_values 4 (pad_of batch) first values.now }
{
    let mut m = [0u8; 128];
    four_inputs(&mut m, batch, first, values);
    let digests = sha256_four::digest(m);
    words::copy_part(pads, 0, &digests);
}

// Lays the pads of four rows side by side: pad 0 before pad 1 in each row.
fn pair_pads(pads0: &[u8; 128], pads1: &[u8; 128], pairs: &mut [u8])
    requires { length pairs.old ≡ 256 }
    ensures { pairs.new ≡ concat 4 (λ i. part (i * 32) 32 pads0.now ++ part (i * 32) 32 pads1.now) }
{
    for i in 0..4 {
        let start = i * 32;
        let at = i * 64;
        words::copy_part(pairs, at, &pads0[start..start + 32]);
        words::copy_part(pairs, at + 32, &pads1[start..start + 32]);
    }
}

// A side's pads: those of a row, SIZE bytes, are made from its number and its value.
trait Pads<const SIZE: usize> {
    // Those of a row.
    ghost made: { Self → ℕ → List ℕ → List ℕ };

    // Makes those of four rows.
    fn make_four(&self, first: u32, values: &[u8], pads: &mut [u8])
        requires { ValuesFit 4 first values.now × (length pads.old ≡ 4 * SIZE) }
        ensures { pads.new ≡ of_values 4 (made self.now) first values.now };

    // Those of a block can be counted.
    ghost small: { SIZE ≤ 64 };

    // Those of a row are so many bytes.
    ghost sized: { (s : Self) (j : ℕ) (value : List ℕ) → length (made s j value) ≡ SIZE };
}

// The receiver's: one for each row.
#[derive(Drop)]
struct Receiver {
    batch: u64,
}

impl Pads<32> for Receiver {
    ghost made = { λ s. pad_of s.batch };

    fn make_four(&self, first: u32, values: &[u8], pads: &mut [u8]) {
        four_pads(self.batch, first, values, pads);
    }

    ghost small = { lit≤ tt };

    ghost sized = { λ s. pad-length s.batch };
}

// The sender's: two for each row. Pad 0 hashes the row value, pad 1 the row value with delta added.
#[derive(Drop)]
struct Sender<'a> {
    batch: u64,
    delta: &'a [u8],
    ghost long: { length delta.now ≡ delta_length },
}

impl Pads<64> for Sender<'_> {
    ghost made = { λ s. pair_of s.batch s.delta.now };

    fn make_four(&self, first: u32, values: &[u8], pads: &mut [u8]) {
        let mut shifted = [0u8; 64];
        words::copy_part(&mut shifted, 0, values);
        words::xor_parts(&mut shifted, 4, self.delta);
        let mut pads0 = [0u8; 128];
        four_pads(self.batch, first, values, &mut pads0);
        let mut pads1 = [0u8; 128];
        four_pads(self.batch, first, &shifted, &mut pads1);
        pair_pads(&pads0, &pads1, pads);
    }

    ghost small = { lit≤ tt };

    ghost sized = { λ s. pair-length s.batch s.delta.now };
}

// The pads of the 64 rows of a block, four rows at a time.
fn block_pads<const SIZE: usize, P>(side: &P, first: u32, values: &[u8], pads: &mut [u8])
where
    P: Pads<SIZE>,
    requires { ValuesFit 64 first values.now × (length pads.old ≡ 16 * (4 * SIZE)) }
    ensures { pads.new ≡ of_values 64 (P.made side.now) first values.now }
{
    let size = 4 * SIZE;
    for group in 0..GROUPS {
        let from = group * 64;
        let start = group * size;
        side.make_four(
            first + (4 * group) as u32,
            &values[from..from + 64],
            &mut pads[start..start + size],
        );
    }
}

// The pads of all rows of a table but those of the spent block. (What is asked of blocks and table is what both public functions ask.) From
// block to block the number of its first row and the byte at which that row stands are carried along.
fn table_pads<const SIZE: usize, P>(side: &P, blocks: usize, table: &[u8], pads: &mut [u8])
where
    P: Pads<SIZE>,
    requires { (blocks ≤ 15) × (length table.now ≡ table_length blocks) × (length pads.old ≡ blocks * (64 * SIZE)) }
    ensures { pads.new ≡ concat (64 * blocks) (λ j. P.made side.now j (row_of columns (column_length blocks) table.now j)) }
{
    let len = 8 * (blocks + 1);
    let size = 64 * SIZE;
    let mut first: u32 = 0;
    let mut at = 0;
    for block in 0..blocks {
        let mut values = [0u8; 1024];
        rows::block_rows(len, table, at, &mut values);
        let start = block * size;
        block_pads(side, first, &values, &mut pads[start..start + size]);
        first += 64;
        at += 8;
    }
}

// The receiver's pads: one for each row of its table, but those of the spent block.
pub fn receiver_pads(blocks: usize, batch: u64, table: &[u8], pads: &mut [u8])
    requires { (blocks ≤ 15) × (length table.now ≡ table_length blocks) × (length pads.old ≡ receiver_pads_length blocks) }
    ensures { pads.new ≡ receiver_pads columns blocks batch table.now }
{
    table_pads(&Receiver { batch }, blocks, table, pads);
}

// The sender's pads: two for each row of its table, but those of the spent block.
pub fn sender_pads(blocks: usize, batch: u64, table: &[u8], delta: &[u8], pads: &mut [u8])
    requires { (blocks ≤ 15) × (length table.now ≡ table_length blocks) × (length delta.now ≡ delta_length) × (length pads.old ≡ sender_pads_length blocks) }
    ensures { pads.new ≡ sender_pads columns blocks batch table.now delta.now }
{
    table_pads(&Sender { batch, delta }, blocks, table, pads);
}
