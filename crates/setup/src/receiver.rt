// The receiver's message, four trees at a time.
ghost use Rattle.std.specs.Prelude.{◌≡◌, ◌*◌, ◌≤◌, length};
ghost use Rattle.words.specs.Bytes.{concat};
ghost use Rattle.tree.specs.Layout.{root_of, tree_part};
ghost use Rattle.setup.specs.Setup.{tree_message, message_of};

use tree::Trees;

// The messages of four trees of k levels, from their roots and base pads.
fn four_messages(k: usize, roots: &[u8], pads: &[u8], message: &mut [u8])
    requires { (k ≤ 8) × (length roots.now ≡ 128) × (length pads.now ≡ 4 * (64 * k)) × (length message.old ≡ 4 * (64 * k)) }
    ensures { message.new ≡ concat 4 (λ i. tree_message k (root_of roots.now i) (tree_part k 64 i pads.now)) }
{
    let mut nodes = [0u32; 32];
    words::load_lanes(&mut nodes, roots);
    let mut sums = [0u32; 512];
    let t = &mut sums[0..64 * k];
    tree::totals(&nodes, k, t);
    words::store_lanes(message, t);
    words::xor_into(message, pads);
}

// The message of all trees.
pub fn write_message(trees: Trees, roots: &[u8], pads: &[u8], message: &mut [u8])
    requires { (length roots.now ≡ trees.n * 32) × (length pads.now ≡ trees.n * (64 * trees.k)) × (length message.old ≡ trees.n * (64 * trees.k)) }
    ensures { message.new ≡ message_of trees.n trees.k roots.now pads.now }
{
    let size = 64 * trees.k;
    for q in 0..trees.n / 4 {
        let i = 4 * q;
        let next = i + 4;
        let start = i * size;
        let end = next * size;
        four_messages(
            trees.k,
            &roots[i * 32..next * 32],
            &pads[start..end],
            &mut message[start..end],
        );
    }
}
