// Four blocks side by side, so that the compiler works on four words with one instruction: word w of lane l stands at 4w + l.
#![tactic(auto)]

ghost use Rattle.std.specs.Prelude.{◌≡◌, ◌*◌, ◌<◌, length};
ghost use Rattle.words.specs.Bytes.{word32};
ghost use Rattle.words.specs.Lanes.{lane, put_lane};
ghost use Rattle.chacha20.specs.ChaCha.{double_round, double_rounds, start_of};
ghost use Rattle.chacha20_four.specs.FourStates.{key_in, blocks_of, listed, EachLane};

// One lane's state, in locals: the loop over the lanes is vectorized only if no lane is an array of its own.
#[derive(Clone, Copy)]
pub struct State {
    pub x0: u32,
    pub x1: u32,
    pub x2: u32,
    pub x3: u32,
    pub x4: u32,
    pub x5: u32,
    pub x6: u32,
    pub x7: u32,
    pub x8: u32,
    pub x9: u32,
    pub x10: u32,
    pub x11: u32,
    pub x12: u32,
    pub x13: u32,
    pub x14: u32,
    pub x15: u32,
}

// A lane's number is a plain number below 4, here and in what follows: it counts loops, and a type of its own would be made in each turn, to be
// taken apart at the next index.
fn get(t: &[u32; 64], l: usize) -> State
    requires { l < 4 }
    ensures { listed result ≡ lane l 16 t.now }
{
    State {
        x0: t[0 + l],
        x1: t[4 + l],
        x2: t[8 + l],
        x3: t[12 + l],
        x4: t[16 + l],
        x5: t[20 + l],
        x6: t[24 + l],
        x7: t[28 + l],
        x8: t[32 + l],
        x9: t[36 + l],
        x10: t[40 + l],
        x11: t[44 + l],
        x12: t[48 + l],
        x13: t[52 + l],
        x14: t[56 + l],
        x15: t[60 + l],
    }
}

fn put(t: &mut [u32; 64], l: usize, s: State)
    requires { l < 4 }
    ensures { t.new ≡ put_lane l 0 (listed s) t.old }
{
    t[0 + l] = s.x0;
    t[4 + l] = s.x1;
    t[8 + l] = s.x2;
    t[12 + l] = s.x3;
    t[16 + l] = s.x4;
    t[20 + l] = s.x5;
    t[24 + l] = s.x6;
    t[28 + l] = s.x7;
    t[32 + l] = s.x8;
    t[36 + l] = s.x9;
    t[40 + l] = s.x10;
    t[44 + l] = s.x11;
    t[48 + l] = s.x12;
    t[52 + l] = s.x13;
    t[56 + l] = s.x14;
    t[60 + l] = s.x15;
}

fn double_lane(s: State) -> State
    ensures { listed result ≡ double_round (listed s) }
{
    let q0 = chacha20::quarter(s.x0, s.x4, s.x8, s.x12);
    let q1 = chacha20::quarter(s.x1, s.x5, s.x9, s.x13);
    let q2 = chacha20::quarter(s.x2, s.x6, s.x10, s.x14);
    let q3 = chacha20::quarter(s.x3, s.x7, s.x11, s.x15);
    let q4 = chacha20::quarter(q0.a, q1.b, q2.c, q3.d);
    let q5 = chacha20::quarter(q1.a, q2.b, q3.c, q0.d);
    let q6 = chacha20::quarter(q2.a, q3.b, q0.c, q1.d);
    let q7 = chacha20::quarter(q3.a, q0.b, q1.c, q2.d);
    State {
        x0: q4.a,
        x1: q5.a,
        x2: q6.a,
        x3: q7.a,
        x4: q7.b,
        x5: q4.b,
        x6: q5.b,
        x7: q6.b,
        x8: q6.c,
        x9: q7.c,
        x10: q4.c,
        x11: q5.c,
        x12: q5.d,
        x13: q6.d,
        x14: q7.d,
        x15: q4.d,
    }
}

fn double_lanes(t: &mut [u32; 64])
    ensures { EachLane (λ l. double_round (lane l 16 t.old)) t.new }
{
    for l in 0..4usize {
        let s = get(t, l);
        put(t, l, double_lane(s));
    }
}

fn rounds(t: &mut [u32; 64])
    ensures { EachLane (λ l. double_rounds 10 (lane l 16 t.old)) t.new }
{
    for i in 0..10usize {
        double_lanes(t);
    }
}

// Word w of the key in lane l.
fn key_word(keys: &[u32; 32], l: usize, w: usize) -> u32
    requires { (l < 4) × (w < 8) }
    ensures { result ≡ word32 (key_in l keys.now) (4 * w) }
{
    keys[4 * w + l]
}

fn start_lane(keys: &[u32; 32], l: usize, counter: u32, nonce: &[u8; 12]) -> State
    requires { l < 4 }
    ensures { listed result ≡ start_of (key_in l keys.now) counter nonce.now }
{
    State {
        x0: 0x61707865,
        x1: 0x3320646e,
        x2: 0x79622d32,
        x3: 0x6b206574,
        x4: key_word(keys, l, 0),
        x5: key_word(keys, l, 1),
        x6: key_word(keys, l, 2),
        x7: key_word(keys, l, 3),
        x8: key_word(keys, l, 4),
        x9: key_word(keys, l, 5),
        x10: key_word(keys, l, 6),
        x11: key_word(keys, l, 7),
        x12: counter,
        x13: words::load32(nonce, 0),
        x14: words::load32(nonce, 4),
        x15: words::load32(nonce, 8),
    }
}

fn start(keys: &[u32; 32], counter: u32, nonce: &[u8; 12]) -> [u32; 64]
    ensures { EachLane (λ l. start_of (key_in l keys.now) counter nonce.now) result }
{
    let mut t = [0u32; 64];
    for l in 0..4usize {
        put(&mut t, l, start_lane(keys, l, counter, nonce));
    }
    t
}

// The blocks of four keys under one counter and nonce.
pub fn block(keys: &[u32; 32], counter: u32, nonce: &[u8; 12]) -> [u32; 64]
    ensures { result ≡ blocks_of keys.now counter nonce.now }
{
    let s = start(keys, counter, nonce);
    let mut t = s;
    rounds(&mut t);
    chacha20::add_words(&mut t, &s);
    t
}
