// Delta as a side for each base transfer, and a side as a mask: never a branch or an address.
// A side stays a plain u8: with a type of its own, each clause and lemma on a list of sides would first have to map it to numbers.
ghost use Rattle.std.specs.Prelude.{◌≡◌, ◌+◌, ◌-◌, ◌*◌, ◌%◌, ◌^◌, ◌<◌, ◌≤◌, length, slice_index};
ghost use Rattle.words.specs.Bytes.{tabulate};
ghost use Rattle.tree.specs.Sides.{sides_of};

// Fills out with the side of the sibling of each base transfer: 1 minus the path's bit, which is delta's highest of the tree at
// level 0. (In memory the compiler doesn't see that a side is a bit: where it sees that, it may turn a mask back into a branch.)
pub fn all(k: usize, delta: &[u8], out: &mut [u8])
    requires { (0 < k) × (length out.old % k ≡ 0) × (length out.old ≤ 8 * length delta.now) }
    ensures { out.new ≡ sides_of (length out.old) k delta.now }
{
    let mut level = 0;
    for c in 0..out.len() {
        let tree = c - level;
        let highest = k - 1 - level;
        out[c] = 1 - words::bit(delta, tree + highest);
        level += 1;
        if level == k {
            level = 0;
        }
    }
}

// The sides of four trees of k levels at a level.
pub fn of_four(k: usize, level: usize, sides: &[u8]) -> [u8; 4]
    requires { (level < k) × (length sides.now ≡ 4 * k) }
    ensures { result ≡ tabulate 4 (λ i. slice_index sides.now (i * k + level)) }
{
    [
        sides[level],
        sides[k + level],
        sides[2 * k + level],
        sides[3 * k + level],
    ]
}

// All ones for side 1, and 0 for side 0.
pub fn mask(side: u8) -> u32
    requires { side < 2 }
    ensures { result ≡ side * (2 ^ 32 - 1) }
{
    0u32.wrapping_sub(side as u32)
}
