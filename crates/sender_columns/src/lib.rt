// The sender's table, four trees at a time. Delta enters as a side for each base transfer, and a side as a mask: never a branch or an
// address.
#![tactic(auto)]

ghost use Rattle.std.specs.Prelude.{◌≡◌, List, ℕ, ◌+◌, ◌-◌, ◌*◌, ◌/◌, ◌%◌, ◌≤◌, ◌<◌, length, get_or};
ghost use Rattle.words.specs.Bytes.{part, concat};
ghost use Rattle.words.specs.Lanes.{lane_bytes};
ghost use Rattle.words.specs.Xor.{xor_each};
ghost use Rattle.tree.specs.WalkWords.{u_word};
ghost use Rattle.tree.specs.Layout.{tree_part};
ghost use Rattle.tree.specs.Sides.{sides_of, Sides};
ghost use Rattle.tree.specs.Streams.{byte_of, word_of};
ghost use Rattle.columns.specs.Columns.{sender_column, sender_table, tree_correction};
ghost use Rattle.columns.specs.Room.{ColumnFits, WorkFits};
ghost use Rattle.sender_columns.specs.FourTrees.{PathsFit, TableFits, FourTableFits, SidesAre, SenderLanes, LaneHas, level_added};

use tree::{Stream, Trees};

// Adds u to v in the lanes whose side is 1.
fn add_where(v: &mut [u32], u: &[u32], sides: [u8; 4])
    requires { (length v.old ≡ length u.now) × (length u.now % 4 ≡ 0) × Sides sides }
    ensures { v.new ≡ xor_each v.old (λ i. get_or sides (i % 4) 0 * get_or u.now i 0) }
{
    let m0 = tree::side::mask(sides[0]);
    let m1 = tree::side::mask(sides[1]);
    let m2 = tree::side::mask(sides[2]);
    let m3 = tree::side::mask(sides[3]);
    for q in 0..u.len() / 4 {
        let i = 4 * q;
        let a = v[i] ^ (u[i] & m0);
        let b = v[i + 1] ^ (u[i + 1] & m1);
        let c = v[i + 2] ^ (u[i + 2] & m2);
        let d = v[i + 3] ^ (u[i + 3] & m3);
        v[i] = a;
        v[i + 1] = b;
        v[i + 2] = c;
        v[i + 3] = d;
    }
}

// One level of four trees of k levels. The leaves below the sibling made there are those that part from delta's path at bit r. Each of them
// has bit r of y ⊕ delta_i, so what u gains goes to column r; and u as it was before goes there where delta has the bit.
// k, sides and s come apart, and so do u and v: of a struct that holds them each clause, here and below, would have to say which values its
// references had at the start.
fn add_level(
    k: usize,
    level: usize,
    stream: Stream,
    sides: &[u8],
    s: &[u32],
    u: &mut [u32],
    v: &mut [u32],
)
    requires level_lt_k { (level < k) × (k ≤ 8) × (length sides.now ≡ 4 * k) × Sides sides.now × (length s.now ≡ 32 * k) }
    requires u_len { (length u.old % 64 ≡ 0) × (length u.old ≤ 512) × (0 < length u.old) × (length v.old ≡ k * length u.old) }
    ensures u_after { u.new ≡ xor_each u.old (u_word (word_of stream) (k - 1 - level) (part (32 * level) 32 s.now)) }
    ensures v_after { v.new ≡ level_added k stream level (length u.old) sides.now s.now u.old v.old u.new }
{
    let r = k - 1 - level;
    let at = r * u.len();
    let end = at + u.len();
    let bit_zero = tree::side::of_four(k, level, sides);
    let all = [1; 4];
    add_where(&mut v[at..end], u, bit_zero);
    tree::walk(stream, r, &tree::nodes_at(s, 32 * level), u, v);
    add_where(&mut v[at..end], u, all);
}

// All levels of four trees of k levels, from their siblings in s. u has the corrections, and v is zero.
fn add_levels(k: usize, stream: Stream, sides: &[u8], s: &[u32], u: &mut [u32], v: &mut [u32])
    requires k_bound { (k ≤ 8) × (length sides.now ≡ 4 * k) × Sides sides.now × (length s.now ≡ 32 * k) }
    requires u_len { (length u.old % 64 ≡ 0) × (length u.old ≤ 512) × (0 < length u.old) × (length v.old ≡ k * length u.old) × ((i : ℕ) → get_or v.old i 0 ≡ 0) }
    ensures { (d : ℕ → ℕ) → SidesAre k sides.now d → SenderLanes k stream (length u.old) d s.now u.old v.new }
{
    for level in 0..k {
        add_level(k, level, stream, sides, s, u, v);
    }
}

// Fills lane l of t from s.
fn load_lane(t: &mut [u32], l: usize, s: &[u8])
    requires { (l < 4) × (length t.old % 4 ≡ 0) × (length s.now ≡ length t.old) }
    ensures t_after { lane_bytes l (length t.old / 4) t.new ≡ s.now }
    ensures by_index { (m : ℕ) → m < 4 → (m ≡ l → ⊥) → lane_bytes m (length t.old / 4) t.new ≡ lane_bytes m (length t.old / 4) t.old }
{
    for q in 0..t.len() / 4 {
        let i = 4 * q;
        t[i + l] = words::load32(s, i);
    }
}

// Loads the corrections of four trees from tree i on into the lanes of u, which is zero. Tree 0 has none; those of the others stand one after
// the other, so from a later tree on all four are loaded at once.
fn load_corrections(i: usize, correction: &[u8], u: &mut [u32])
    requires { (i ≤ 128) × (length u.old % 4 ≡ 0) × ((i + 3) * length u.old ≤ length correction.now) × ((j : ℕ) → get_or u.old j 0 ≡ 0) }
    ensures { (l : ℕ) → l < 4 → LaneHas (length u.old) l (tree_correction (length u.old) correction.now (i + l)) u.new }
{
    let len = u.len();
    if i == 0 {
        for l in 1..4 {
            let end = l * len;
            load_lane(u, l, &correction[end - len..end]);
        }
    } else {
        words::load_lanes(u, &correction[(i - 1) * len..(i + 3) * len]);
    }
}

// The columns of four trees of k levels from tree i on, from their sides and siblings and all corrections. s, u and v are room to work in,
// whatever they hold.
fn four_trees(
    i: usize,
    k: usize,
    stream: Stream,
    len: usize,
    sides: &[u8],
    siblings: &[u8],
    correction: &[u8],
    s: &mut [u32],
    u: &mut [u32],
    v: &mut [u32],
    table: &mut [u8],
)
    requires paths_fit { PathsFit 4 k sides.now siblings.now × FourTableFits i k len correction.now table.old }
    requires s_len { (length s.old ≡ 32 * k) × WorkFits k len u.old v.old }
    ensures { (d : ℕ → ℕ) → SidesAre k sides.now d → table.new ≡ concat 4 (λ j. concat k (sender_column k (byte_of stream) len (tree_part k 32 j siblings.now) (d j) (tree_correction len correction.now (i + j)))) }
{
    words::clear(u);
    words::clear(v);
    load_corrections(i, correction, &mut u[0..len]);
    words::load_lanes(s, siblings);
    add_levels(k, stream, sides, s, u, v);
    columns::store_trees(k, len, u.len(), v, table);
}

// The columns of all trees. sides has a side for each base transfer.
fn all_trees(
    trees: Trees,
    stream: Stream,
    len: usize,
    sides: &[u8],
    siblings: &[u8],
    correction: &[u8],
    table: &mut [u8],
)
    requires trees_fit { PathsFit trees.n trees.k sides.now siblings.now × TableFits trees.n trees.k len correction.now table.old }
    requires column_fits { ColumnFits len }
    ensures { (delta : List ℕ) → sides.now ≡ sides_of (trees.n * trees.k) trees.k delta → table.new ≡ sender_table trees.n trees.k (byte_of stream) len siblings.now delta (tree_correction len correction.now) }
{
    let k = trees.k;
    let size = 32 * k;
    let wide = k * len;
    let room = columns::room(len);
    let mut nodes = [0u32; 256];
    let mut sums = [0u32; 128];
    let mut cells = [0u32; 1024];
    let s = &mut nodes[0..size];
    let u = &mut sums[0..room];
    let v = &mut cells[0..k * room];
    for q in 0..trees.n / 4 {
        let i = 4 * q;
        let next = i + 4;
        four_trees(
            i,
            k,
            stream,
            len,
            &sides[i * k..next * k],
            &siblings[i * size..next * size],
            correction,
            s,
            u,
            v,
            &mut table[i * wide..next * wide],
        );
    }
}

// The sender's table, by a stream, whose columns have len bytes. (len is lent for itself: no range here is one column.)
pub fn correct(
    trees: Trees,
    stream: Stream,
    len: usize,
    siblings: &[u8],
    delta: &[u8],
    correction: &[u8],
    table: &mut [u8],
)
    requires trees_fit { (trees.n * trees.k ≤ 8 * length delta.now) × (length siblings.now ≡ trees.n * (32 * trees.k)) × TableFits trees.n trees.k len correction.now table.old }
    requires column_fits { ColumnFits len }
    ensures { table.new ≡ sender_table trees.n trees.k (byte_of stream) len siblings.now delta.now (tree_correction len correction.now) }
{
    let mut room = [0u8; sizes::COLUMNS];
    let sides = &mut room[0..trees.n * trees.k];
    tree::side::all(trees.k, delta, sides);
    all_trees(trees, stream, len, sides, siblings, correction, table);
}
