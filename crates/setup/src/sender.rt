// The sender's siblings. Delta enters as a side for each base transfer, and a side as a mask: never a branch or an address.
ghost use Rattle.std.specs.Prelude.{◌≡◌, List, ℕ, ◌+◌, ◌-◌, ◌*◌, ◌%◌, ◌≤◌, ◌<◌, length, get_or};
ghost use Rattle.words.specs.Bytes.{tabulate, part};
ghost use Rattle.words.specs.Xor.{◌⊕◌, xor_each, xor_part};
ghost use Rattle.tree.specs.WalkWords.{total_word};
ghost use Rattle.sizes.specs.Sizes.{columns};
ghost use Rattle.setup.specs.Setup.{unmasked, siblings_of};
ghost use Rattle.tree.specs.Sides.{sides_of, Sides};
ghost use Rattle.setup.specs.Found.{FourSides, found_in};

use tree::Trees;

// Fills out with one side's total of two, unmasked by a pad.
fn unmask(out: &mut [u8], totals: &[u8], pad: &[u8], side: u8)
    requires { (length out.old ≡ 32) × (length totals.now ≡ 64) × (length pad.now ≡ 32) × (side < 2) }
    ensures { out.new ≡ tabulate 32 (λ j. get_or totals.now (32 * side + j) 0 ⊕ get_or pad.now j 0) }
{
    // a byte of the mask: a second mask for bytes would be its twin
    let ones = (tree::side::mask(side) % 256) as u8;
    for j in 0..32 {
        let left = totals[j];
        out[j] = left ^ ((left ^ totals[32 + j]) & ones) ^ pad[j];
    }
}

// The unmasked totals of all base transfers, of which each has a side.
fn unmask_all(sides: &[u8], pads: &[u8], message: &[u8], siblings: &mut [u8])
    requires sides_len_bound { (length sides.now ≤ columns) × Sides sides.now }
    requires pads_len { (length pads.now ≡ 32 * length sides.now) × (length message.now ≡ 64 * length sides.now) × (length siblings.old ≡ 32 * length sides.now) }
    ensures { siblings.new ≡ unmasked (length sides.now) (λ c. get_or sides.now c 0) pads.now message.now }
{
    for c in 0..sides.len() {
        let start = 32 * c;
        let end = start + 32;
        let from = 64 * c;
        let to = from + 64;
        unmask(
            &mut siblings[start..end],
            &message[from..to],
            &pads[start..end],
            sides[c],
        );
    }
}

// Adds to four nodes, in lanes, the totals of a level, of one side in each lane.
fn take_off(nodes: &mut [u32], totals: &[u32], sides: [u8; 4])
    requires { (length nodes.old ≡ 32) × (length totals.now ≡ 64) × Sides sides }
    ensures { nodes.new ≡ xor_each nodes.old (λ i. get_or totals.now (32 * get_or sides (i % 4) 0 + i) 0) }
{
    for i in 0..32 {
        let left = totals[i];
        let ones = tree::side::mask(sides[i % 4]);
        nodes[i] ^= left ^ ((left ^ totals[32 + i]) & ones);
    }
}

// From the nodes found at a level to those of the next, in four trees of k levels: t has what the nodes found above it make at each
// level, s the nodes found so far and the unmasked totals of the levels after them. k and sides come apart: a struct of the two would stand
// in this contract and the next alone, and as it would hold a reference, each clause would have to name its value at the entry.
fn next_level(k: usize, level: usize, sides: &[u8], t: &mut [u32], s: &mut [u32])
    requires level_bound { (level + 1 < k) × FourSides k sides.now }
    requires t_len { (length t.old ≡ 64 * k) × (length s.old ≡ 32 * k) }
    ensures t_after { t.new ≡ xor_part t.old (64 * (level + 1)) (64 * (k - 1 - level)) (total_word (part (32 * level) 32 s.old)) }
    ensures s_after { s.new ≡ xor_part s.old (32 * (level + 1)) 32 (λ i. get_or t.new (64 * (level + 1) + (32 * get_or sides.now (i % 4 * k + (level + 1)) 0 + i)) 0) }
{
    let next = level + 1;
    let nodes = tree::nodes_at(s, 32 * level);
    let below = 64 * next;
    tree::totals(&nodes, k - next, &mut t[below..]);
    let first = 32 * next;
    let last = first + 32;
    let end = below + 64;
    take_off(
        &mut s[first..last],
        &t[below..end],
        tree::side::of_four(k, next, sides),
    );
}

// The siblings of four trees of k levels, in the place of their unmasked totals.
fn four_trees(k: usize, sides: &[u8], siblings: &mut [u8])
    requires { FourSides k sides.now × (length siblings.old ≡ 4 * (32 * k)) }
    ensures { siblings.new ≡ found_in k 4 sides.now siblings.old }
{
    let mut made = [0u32; 512];
    let mut nodes = [0u32; 256];
    let t = &mut made[0..64 * k];
    let s = &mut nodes[0..32 * k];
    words::load_lanes(s, siblings);
    for level in 0..k - 1 {
        next_level(k, level, sides, t, s);
    }
    words::store_lanes(siblings, s);
}

// The siblings of all trees, in the place of their unmasked totals.
fn all_trees(trees: Trees, sides: &[u8], siblings: &mut [u8])
    requires { (length sides.now ≡ trees.n * trees.k) × Sides sides.now × (length siblings.old ≡ trees.n * (32 * trees.k)) }
    ensures { siblings.new ≡ found_in trees.k trees.n sides.now siblings.old }
{
    let k = trees.k;
    let size = 32 * k;
    for q in 0..trees.n / 4 {
        let i = 4 * q;
        let next = i + 4;
        four_trees(
            k,
            &sides[i * k..next * k],
            &mut siblings[i * size..next * size],
        );
    }
}

// The siblings of all trees, from a side for each base transfer, the pads that the sender has and a message.
fn find_by_sides(trees: Trees, sides: &[u8], pads: &[u8], message: &[u8], siblings: &mut [u8])
    requires { (length sides.now ≡ trees.n * trees.k) × Sides sides.now × (length pads.now ≡ trees.n * (32 * trees.k)) × (length message.now ≡ trees.n * (64 * trees.k)) × (length siblings.old ≡ trees.n * (32 * trees.k)) }
    ensures { (delta : List ℕ) → sides.now ≡ sides_of (trees.n * trees.k) trees.k delta → siblings.new ≡ siblings_of trees.n trees.k delta pads.now message.now }
{
    unmask_all(sides, pads, message, siblings);
    // where a tree has one level there is nothing to take off
    if trees.k > 1 {
        all_trees(trees, sides, siblings);
    }
}

// The same, from delta. (So begins `sender_columns::correct`, of other ranges: two lines that make sides.)
pub fn find_siblings(trees: Trees, delta: &[u8], pads: &[u8], message: &[u8], siblings: &mut [u8])
    requires { (trees.n * trees.k ≤ 8 * length delta.now) × (length pads.now ≡ trees.n * (32 * trees.k)) × (length message.now ≡ trees.n * (64 * trees.k)) × (length siblings.old ≡ trees.n * (32 * trees.k)) }
    ensures { siblings.new ≡ siblings_of trees.n trees.k delta.now pads.now message.now }
{
    let mut room = [0u8; sizes::COLUMNS];
    let sides = &mut room[0..trees.n * trees.k];
    tree::side::all(trees.k, delta, sides);
    find_by_sides(trees, sides, pads, message, siblings);
}
