// The receiver's start, four trees at a time.
#![tactic(auto)]

ghost use Rattle.std.specs.Prelude.{◌≡◌, ◌++◌, ℕ, ◌+◌, ◌-◌, ◌*◌, ◌/◌, ◌%◌, ◌≤◌, ◌<◌, length, take};
ghost use Rattle.words.specs.Bytes.{part, put, concat};
ghost use Rattle.words.specs.Lanes.{lane_bytes};
ghost use Rattle.tree.specs.Layout.{root_of};
ghost use Rattle.tree.specs.Streams.{byte_of};
ghost use Rattle.columns.specs.Columns.{u_of, choices_of, receiver_column, receiver_table, correction_of};
ghost use Rattle.columns.specs.Room.{ColumnFits, WorkFits};
ghost use Rattle.receiver_columns.specs.StartFits.{StartFits, FourStartFits};

use tree::{Stream, Trees};

// Fills u with the sums of the streams of four trees of k levels, side by side, and v with their columns. They are whole blocks long; a
// column of len bytes is the first len bytes of a lane.
fn walk_roots(k: usize, stream: Stream, roots: &[u8], u: &mut [u32], v: &mut [u32])
    requires { (length roots.now ≡ 128) × (length u.old % 64 ≡ 0) × (length u.old ≤ 128) × (0 < length u.old) × (length v.old ≡ k * length u.old) }
    ensures sums { (len l : ℕ) → len % 4 ≡ 0 → len ≤ length u.old → l < 4 → lane_bytes l (len / 4) (take len u.new) ≡ u_of k (byte_of stream) len (root_of roots.now l) }
    ensures columns { (len l b : ℕ) → len % 4 ≡ 0 → len ≤ length u.old → l < 4 → b < k → lane_bytes l (len / 4) (part (b * length u.old) len v.new) ≡ receiver_column k (byte_of stream) len (root_of roots.now l) b }
{
    let mut nodes = [0u32; 32];
    words::load_lanes(&mut nodes, roots);
    words::clear(u);
    words::clear(v);
    tree::walk(stream, k, &nodes, u, v);
}

// Lays the sum u of tree i, lane l of u, where it goes: that of tree 0 is the choices, those of the others stand one after the other in the
// correction.
fn hand_out(i: usize, l: usize, u: &[u32], choices: &mut [u8], correction: &mut [u8])
    requires { (l < 4) × (length choices.old ≡ length u.now) × (length u.now % 4 ≡ 0) × (i * length u.now ≤ length correction.old) }
    ensures { choices.new ++ correction.new ≡ put (choices.old ++ correction.old) (i * length u.now) (lane_bytes l (length u.now / 4) u.now) }
{
    if i == 0 {
        words::store_lane(choices, l, u);
    } else {
        let end = i * u.len();
        let at = end - u.len();
        words::store_lane(&mut correction[at..end], l, u);
    }
}

// The same for four trees from tree i on.
fn hand_out_four(i: usize, u: &[u32], choices: &mut [u8], correction: &mut [u8])
    requires { (i ≤ 128) × (length choices.old ≡ length u.now) × (length u.now % 4 ≡ 0) × ((i + 3) * length u.now ≤ length correction.old) }
    ensures { choices.new ++ correction.new ≡ put (choices.old ++ correction.old) (i * length u.now) (concat 4 (λ l. lane_bytes l (length u.now / 4) u.now)) }
{
    for l in 0..4 {
        hand_out(i + l, l, u, choices, correction);
    }
}

// The sums u of four trees from tree i on, each where it goes, and their columns, each as long as the choices. u and v are room to work
// in, whatever they hold. They stay two slices: a slice that is lent keeps its length, but of a struct that holds both each clause would
// have to say that it keeps k and the lengths.
fn four_trees(
    i: usize,
    k: usize,
    stream: Stream,
    roots: &[u8],
    u: &mut [u32],
    v: &mut [u32],
    choices: &mut [u8],
    correction: &mut [u8],
    table: &mut [u8],
)
    requires work_fits { WorkFits k (length choices.old) u.old v.old }
    requires four_start_fits { FourStartFits i k (length choices.old) roots.now choices.old correction.old table.old }
    ensures correction_after { choices.new ++ correction.new ≡ put (choices.old ++ correction.old) (i * length choices.old) (concat 4 (λ l. u_of k (byte_of stream) (length choices.old) (root_of roots.now l))) }
    ensures table_after { table.new ≡ concat 4 (λ l. concat k (receiver_column k (byte_of stream) (length choices.old) (root_of roots.now l))) }
{
    let len = choices.len();
    walk_roots(k, stream, roots, u, v);
    hand_out_four(i, &u[0..len], choices, correction);
    columns::store_trees(k, len, u.len(), v, table);
}

// All trees. What is left in the correction are the sums u, without the choices.
fn all_trees(
    trees: Trees,
    stream: Stream,
    roots: &[u8],
    u: &mut [u32],
    v: &mut [u32],
    choices: &mut [u8],
    correction: &mut [u8],
    table: &mut [u8],
)
    requires work_fits { WorkFits trees.k (length choices.old) u.old v.old }
    requires start_fits { StartFits trees.n trees.k (length choices.old) roots.now choices.old correction.old table.old }
    ensures correction_after { choices.new ++ correction.new ≡ concat trees.n (λ i. u_of trees.k (byte_of stream) (length choices.old) (root_of roots.now i)) }
    ensures table_after { table.new ≡ receiver_table trees.n trees.k (byte_of stream) (length choices.old) roots.now }
{
    let size = trees.k * choices.len();
    for q in 0..trees.n / 4 {
        let i = 4 * q;
        let next = i + 4;
        let first = i * 32;
        let last = next * 32;
        let start = i * size;
        let end = next * size;
        four_trees(
            i,
            trees.k,
            stream,
            &roots[first..last],
            u,
            v,
            choices,
            correction,
            &mut table[start..end],
        );
    }
}

// The receiver's start: its choices, its table and the correction, from the roots of the trees, by a stream.
pub fn start(
    trees: Trees,
    stream: Stream,
    roots: &[u8],
    choices: &mut [u8],
    table: &mut [u8],
    correction: &mut [u8],
)
    requires column_fits { ColumnFits (length choices.old) }
    requires start_fits { StartFits trees.n trees.k (length choices.old) roots.now choices.old correction.old table.old }
    ensures choices_after { choices.new ≡ choices_of trees.k (byte_of stream) (length choices.old) roots.now }
    ensures table_after { table.new ≡ receiver_table trees.n trees.k (byte_of stream) (length choices.old) roots.now }
    ensures correction_after { correction.new ≡ correction_of trees.n trees.k (byte_of stream) (length choices.old) roots.now }
{
    let room = columns::room(choices.len());
    let size = trees.k * room;
    let mut u = [0u32; 128];
    let mut v = [0u32; 1024];
    all_trees(
        trees,
        stream,
        roots,
        &mut u[0..room],
        &mut v[0..size],
        choices,
        correction,
        table,
    );
    words::xor_parts(correction, trees.n - 1, choices);
}
