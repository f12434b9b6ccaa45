// What a walk of the trees makes and adds up. Four trees go side by side: word w of lane l stands at 4w + l.
#![tactic(auto)]

pub mod side;

ghost use Rattle.std.specs.Prelude.{◌≡◌, true, ◌+◌, ◌*◌, ◌%◌, ◌<◌, ◌≤◌, length, slice_index};
ghost use Rattle.words.specs.Bytes.{part};
ghost use Rattle.words.specs.Xor.{xor_each, xor_part};
ghost use Rattle.tree.specs.WalkWords.{total_word, u_word, column_word};
ghost use Rattle.tree.specs.Streams.{block_word, word_of};
ghost use Rattle.tree.specs.Sides.{TreesFit};
ghost use Rattle.sizes.specs.Sizes.{width_allowed, trees_of};

// What a leaf's stream is drawn by: the number of the batch.
#[derive(Clone, Copy)]
pub struct Stream {
    pub batch: u64,
}

// Paper 01's trees: n of k levels.
#[derive(Clone, Copy)]
pub struct Trees {
    pub n: usize,
    pub k: usize,
    pub ghost fit: { TreesFit n k },
}

impl Trees {
    // Those of an allowed width.
    pub fn of(width: u32) -> Trees
        requires { width_allowed width ≡ true }
        ensures n { result.n ≡ trees_of width }
        ensures k { result.k ≡ width }
    {
        Trees {
            n: sizes::trees_of(width),
            k: width as usize,
        }
    }
}

// The four nodes at a place of s: in four blocks the left children stand at 0, the right ones at 32. (A loop: with `from_fn`
// the proof of its 32 words did not close.)
pub fn nodes_at(s: &[u32], at: usize) -> [u32; 32]
    requires { at + 32 ≤ length s.now }
    ensures { result ≡ part at 32 s.now }
{
    let mut r = [0u32; 32];
    for i in 0..32 {
        r[i] = s[at + i];
    }
    r
}

// Adds the children made at each of some levels below four nodes to t, 64 words a level.
pub fn totals(nodes: &[u32; 32], levels: usize, t: &mut [u32])
    requires { length t.old ≡ 64 * levels }
    ensures { t.new ≡ xor_each t.old (total_word nodes.now) }
{
    if levels > 0 {
        let c = chacha20_four::block(nodes, 0, &nonces::nonce(0, 0));
        words::xor_into(&mut t[0..64], &c);
        totals(&nodes_at(&c, 0), levels - 1, &mut t[64..]);
        totals(&nodes_at(&c, 32), levels - 1, &mut t[64..]);
    }
}

// Adds the blocks of four keys under a nonce, by the counters from 0 on, to u. (That u has whole blocks, eight at most, is said of a lent slice, here
// and wherever trees are walked: a slice keeps its length, and a struct that holds one would have to say so in each clause.)
fn add_blocks(nonce: &[u8; 12], keys: &[u32; 32], u: &mut [u32])
    requires { (length u.old % 64 ≡ 0) × (length u.old ≤ 512) }
    ensures { u.new ≡ xor_each u.old (u_word (block_word nonce.now) 0 keys.now) }
{
    for counter in 0..u.len() / 64 {
        let c = chacha20_four::block(keys, counter as u32, nonce);
        let at = 64 * counter;
        let end = at + 64;
        words::xor_into(&mut u[at..end], &c);
    }
}

// Adds the streams of four leaves to u.
fn add_stream(stream: Stream, leaves: &[u32; 32], u: &mut [u32])
    requires { (length u.old % 64 ≡ 0) × (length u.old ≤ 512) }
    ensures { u.new ≡ xor_each u.old (u_word (word_of stream) 0 leaves.now) }
{
    add_blocks(&nonces::nonce(1, stream.batch), leaves, u);
}

// Adds u to column r of v.
fn add_column(v: &mut [u32], r: usize, u: &[u32])
    requires { r * length u.now + length u.now ≤ length v.old }
    ensures { v.new ≡ xor_part v.old (r * length u.now) (length u.now) (λ i. slice_index u.now i) }
{
    let at = r * u.len();
    let end = at + u.len();
    words::xor_into(&mut v[at..end], u);
}

// Adds the streams of all leaves some levels below four nodes to u, and to column b of v those of the leaves whose number has bit b.
// The leaves on the right have the bit of their level: u is added to its column before them and after them, so that only they stay.
pub fn walk(stream: Stream, levels: usize, nodes: &[u32; 32], u: &mut [u32], v: &mut [u32])
    requires u_in_bounds { levels * length u.old ≤ length v.old }
    requires u_len { (length u.old % 64 ≡ 0) × (length u.old ≤ 512) × (0 < length u.old) }
    ensures u_after { u.new ≡ xor_each u.old (u_word (word_of stream) levels nodes.now) }
    ensures v_after { v.new ≡ xor_each v.old (column_word (word_of stream) (length u.old) levels nodes.now) }
{
    if levels == 0 {
        add_stream(stream, nodes, u);
    } else {
        let c = chacha20_four::block(nodes, 0, &nonces::nonce(0, 0));
        walk(stream, levels - 1, &nodes_at(&c, 0), u, v);
        add_column(v, levels - 1, u); // what u has so far goes when u is added again
        walk(stream, levels - 1, &nodes_at(&c, 32), u, v);
        add_column(v, levels - 1, u);
    }
}
