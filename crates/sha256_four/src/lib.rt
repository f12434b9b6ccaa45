// Four digests at once, side by side, so that the compiler works on four words with one instruction: word w of lane l stands at 4w + l.
#![tactic(auto)]

ghost use Rattle.std.specs.Prelude.{◌≡◌, ◌+◌, ◌<◌, get_or, take};
ghost use Rattle.words.specs.Bytes.{concat};
ghost use Rattle.words.specs.Lanes.{lane, put_lane, laned};
ghost use Rattle.sha256_four.specs.FourDigests.{digests, words_of, work_of, schedules, schedule_in, four_in_lanes, rounds_in_lanes, digest_in};

use sha256::Work;
use sha256::rounds::{Schedule, four_rounds};

// Words 8 to 15 of the block of a message of 32 bytes: its padding.
const PAD: [u32; 8] = [0x80000000, 0, 0, 0, 0, 0, 0, 256];

// Word at / 4 of the block of message at % 4.
fn first_word(m: &[u8; 128], at: usize) -> u32
    requires { at < 64 }
    ensures { result ≡ get_or (schedules m.now) at 0 }
{
    if at < 32 {
        sha256::word(m, 32 * (at % 4) + 4 * (at / 4))
    } else {
        PAD[at / 4 - 8]
    }
}

// The 64 words of the blocks.
fn load(m: &[u8; 128], w: &mut [u32; 256])
    ensures { take 64 w.new ≡ take 64 (schedules m.now) }
{
    for at in 0..64usize {
        w[at] = first_word(m, at);
    }
}

// The 64 words of the blocks, and 192 that come from those before them.
// They are written where they are used: an array that is returned is copied.
fn schedule(m: &[u8; 128], w: &mut [u32; 256])
    ensures { w.new ≡ schedules m.now }
{
    load(m, &mut *w);
    for at in 0..192usize {
        w[at + 64] = sha256::next(w[at + 56], w[at + 36], w[at + 4], w[at]);
    }
}

// The working variables in lane l.
fn get(t: &[u32; 32], l: usize) -> Work
    requires { l < 4 }
    ensures { result ≡ work_of (lane l 8 t.now) }
{
    Work {
        a: t[0 + l],
        b: t[4 + l],
        c: t[8 + l],
        d: t[12 + l],
        e: t[16 + l],
        f: t[20 + l],
        g: t[24 + l],
        h: t[28 + l],
    }
}

fn put(t: &mut [u32; 32], l: usize, s: Work)
    requires { l < 4 }
    ensures { t.new ≡ put_lane l 0 (words_of s) t.old }
{
    t[0 + l] = s.a;
    t[4 + l] = s.b;
    t[8 + l] = s.c;
    t[12 + l] = s.d;
    t[16 + l] = s.e;
    t[20 + l] = s.f;
    t[24 + l] = s.g;
    t[28 + l] = s.h;
}

// The schedule in lane l of four.
#[derive(Drop)]
struct Lane<'a> {
    words: &'a [u32; 256],
    l: usize,
    ghost among_four: { l < 4 },
}

impl Schedule for Lane<'_> {
    ghost words = { λ s. schedule_in s.l s.words.now };

    #[tactic(auto, using(crate::proofs::InLanes::word_in))]
    fn word(&self, t: usize) -> u32 {
        self.words[4 * t + self.l]
    }
}

fn lanes(i: usize, w: &[u32; 256], t: &mut [u32; 32])
    requires { i + 3 < 64 }
    ensures { t.new ≡ four_in_lanes i w.now t.old }
{
    for l in 0..4usize {
        let s = get(&*t, l);
        put(&mut *t, l, four_rounds(i, &Lane { words: w, l }, s));
    }
}

// A value in each lane.
fn spread(s: Work) -> [u32; 32]
    ensures { result ≡ laned 8 (λ l. words_of s) }
{
    [
        s.a, s.a, s.a, s.a, s.b, s.b, s.b, s.b, s.c, s.c, s.c, s.c, s.d, s.d, s.d, s.d, s.e, s.e,
        s.e, s.e, s.f, s.f, s.f, s.f, s.g, s.g, s.g, s.g, s.h, s.h, s.h, s.h,
    ]
}

fn rounds(w: &[u32; 256]) -> [u32; 32]
    ensures { result ≡ rounds_in_lanes 64 w.now }
{
    let mut t = spread(Work::initial());
    for turn in 0..16usize {
        lanes(4 * turn, w, &mut t);
    }
    t
}

// The digest that lane l ends with.
#[tactic(auto, unfolding(crate::specs::FourDigests::digest_in))]
fn finish(t: &[u32; 32], l: usize) -> [u8; 32]
    requires { l < 4 }
    ensures { result ≡ digest_in l t.now }
{
    get(t, l).plus(Work::initial()).to_be_bytes()
}

fn collect(t: &[u32; 32]) -> [u8; 128]
    ensures { result ≡ concat 4 (λ l. digest_in l t.now) }
{
    let mut out = [0u8; 128];
    for l in 0..4usize {
        words::copy_part(&mut out, 32 * l, &finish(t, l));
    }
    out
}

// The digests of four messages of 32 bytes: that of message l stands where the message stood.
pub fn digest(m: [u8; 128]) -> [u8; 128]
    ensures { result ≡ digests m }
{
    let mut w = [0u32; 256];
    schedule(&m, &mut w);
    let t = rounds(&w);
    collect(&t)
}
