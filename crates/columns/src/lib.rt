// What both sides do with the columns of four trees side by side: word w of lane l stands at 4w + l.
#![tactic(auto)]

ghost use Rattle.std.specs.Prelude.{◌≡◌, ◌+◌, ◌*◌, ◌/◌, ◌%◌, ◌≤◌, ◌<◌, length};
ghost use Rattle.words.specs.Bytes.{part, concat};
ghost use Rattle.words.specs.Lanes.{lane_bytes};

// The words that a walk needs for a column of len bytes in each of four lanes: a word for each byte, in whole blocks of 64.
pub fn room(len: usize) -> usize
    requires { len ≤ 128 }
    ensures { result ≡ (len + 63) / 64 * 64 }
{
    len.next_multiple_of(64)
}

// Fills out with k columns of len bytes from lane l of v, where a column begins every stride words. (That k is at most 8, and the like, is said of a number:
// a type for it would be made in each caller's turn.)
fn store_tree(k: usize, len: usize, stride: usize, v: &[u32], l: usize, out: &mut [u8])
    requires k_bound { (k ≤ 8) × (len ≤ stride) × (stride ≤ 128) × (len % 4 ≡ 0) × (l < 4) }
    requires stride_in_bounds { (k * stride ≤ length v.now) × (length out.old ≡ k * len) }
    ensures { out.new ≡ concat k (λ b. lane_bytes l (len / 4) (part (b * stride) len v.now)) }
{
    for b in 0..k {
        let at = b * len;
        let end = at + len;
        let from = b * stride;
        let to = from + len;
        words::store_lane(&mut out[at..end], l, &v[from..to]);
    }
}

// The same for each lane, one tree after the other.
pub fn store_trees(k: usize, len: usize, stride: usize, v: &[u32], out: &mut [u8])
    requires k_bound { (k ≤ 8) × (len ≤ stride) × (stride ≤ 128) × (len % 4 ≡ 0) }
    requires stride_in_bounds { (k * stride ≤ length v.now) × (length out.old ≡ 4 * (k * len)) }
    ensures { out.new ≡ concat 4 (λ l. concat k (λ b. lane_bytes l (len / 4) (part (b * stride) len v.now))) }
{
    let size = k * len;
    for l in 0..4 {
        let at = l * size;
        let end = at + size;
        store_tree(k, len, stride, v, l, &mut out[at..end]);
    }
}
