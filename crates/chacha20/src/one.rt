// One block.
ghost use Rattle.std.specs.Prelude.{◌≡◌, ◌<◌};
ghost use Rattle.chacha20.specs.ChaCha.{quarter_at, double_round, double_rounds, start_of, block_of};

// The quarter round on words i, j, k and l of a state, which are numbers as in RFC 8439.
fn quarter_round(i: usize, j: usize, k: usize, l: usize, s: &mut [u32; 16])
    requires { (i < 16) × (j < 16) × (k < 16) × (l < 16) }
    ensures { s.new ≡ quarter_at i j k l s.old }
{
    let q = crate::quarter(s[i], s[j], s[k], s[l]);
    s[i] = q.a;
    s[j] = q.b;
    s[k] = q.c;
    s[l] = q.d;
}

fn double_round(s: &mut [u32; 16])
    ensures { s.new ≡ double_round s.old }
{
    quarter_round(0, 4, 8, 12, s);
    quarter_round(1, 5, 9, 13, s);
    quarter_round(2, 6, 10, 14, s);
    quarter_round(3, 7, 11, 15, s);
    quarter_round(0, 5, 10, 15, s);
    quarter_round(1, 6, 11, 12, s);
    quarter_round(2, 7, 8, 13, s);
    quarter_round(3, 4, 9, 14, s);
}

fn rounds(s: &mut [u32; 16])
    ensures { s.new ≡ double_rounds 10 s.old }
{
    for i in 0..10usize {
        double_round(s);
    }
}

fn start(key: &[u8; 32], counter: u32, nonce: &[u8; 12]) -> [u32; 16]
    ensures { result ≡ start_of key.now counter nonce.now }
{
    [
        0x61707865,
        0x3320646e,
        0x79622d32,
        0x6b206574,
        words::load32(key, 0),
        words::load32(key, 4),
        words::load32(key, 8),
        words::load32(key, 12),
        words::load32(key, 16),
        words::load32(key, 20),
        words::load32(key, 24),
        words::load32(key, 28),
        counter,
        words::load32(nonce, 0),
        words::load32(nonce, 4),
        words::load32(nonce, 8),
    ]
}

// The block of a key, a counter and a nonce: three things apart, as RFC 8439 has them.
pub fn block(key: &[u8; 32], counter: u32, nonce: &[u8; 12]) -> [u8; 64]
    ensures { result ≡ block_of key.now counter nonce.now }
{
    let s = start(key, counter, nonce);
    let mut t = s;
    rounds(&mut t);
    crate::add_words(&mut t, &s);
    let mut out = [0u8; 64];
    words::store_words(&mut out, &t);
    out
}
