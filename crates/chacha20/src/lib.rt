// The ChaCha20 block function of RFC 8439: one block, and what four side by side (`chacha20_four`) are made of too.
#![tactic(auto)]

pub mod one;

ghost use Rattle.std.specs.Prelude.{◌≡◌, length};
ghost use Rattle.chacha20.specs.ChaCha.{quarter_round, add_words};

#[derive(Clone, Copy)]
pub struct Quad {
    pub a: u32,
    pub b: u32,
    pub c: u32,
    pub d: u32,
}

// The quarter round of four words.
pub fn quarter(a: u32, b: u32, c: u32, d: u32) -> Quad
    ensures { result ≡ quarter_round a b c d }
{
    let a1 = words::add(a, b);
    let d1 = words::rotate_left(16, d ^ a1);
    let c1 = words::add(c, d1);
    let b1 = words::rotate_left(12, b ^ c1);
    let a2 = words::add(a1, b1);
    let d2 = words::rotate_left(8, d1 ^ a2);
    let c2 = words::add(c1, d2);
    let b2 = words::rotate_left(7, b1 ^ c2);
    Quad {
        a: a2,
        b: b2,
        c: c2,
        d: d2,
    }
}

// Adds the words of src to those of dst, modulo 2^32. Apart from `words::xor_into`, whose trait has one operation for each number.
pub fn add_words(dst: &mut [u32], src: &[u32])
    requires { length dst.old ≡ length src.now }
    ensures { dst.new ≡ add_words dst.old src.now }
{
    for i in 0..dst.len() {
        dst[i] = words::add(dst[i], src[i]);
    }
}
