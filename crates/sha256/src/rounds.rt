// The rounds over the words of one schedule, wherever they stand.
ghost use Rattle.std.specs.Prelude.{◌≡◌, ◌+◌, ◌<◌, ℕ, List, get_or};
ghost use Rattle.sha256.specs.Pieces.{four_rounds};
ghost use Rattle.sha256.specs.Sha.{round_at};

use crate::Work;

// The 64 words of a block's schedule.
pub trait Schedule {
    ghost words: { Self → List ℕ };

    fn word(&self, t: usize) -> u32
        requires { t < 64 }
        ensures { result ≡ get_or (words self.now) t 0 };
}

impl Schedule for [u32; 64] {
    ghost words = { λ w. w };

    fn word(&self, t: usize) -> u32 {
        self[t]
    }
}

#[tactic(auto, unfolding(crate::specs::Sha::constants))]
fn round<S: Schedule>(t: usize, w: &S, s: Work) -> Work
    requires { t < 64 }
    ensures { result ≡ round_at t (S.words w.now) s }
{
    s.step(crate::K[t], w.word(t))
}

// Rounds i to i + 3: with four in a turn of the loop the compiler moves the working variables less often.
#[tactic(auto, unfolding(crate::specs::Pieces::four_rounds))]
pub fn four_rounds<S: Schedule>(i: usize, w: &S, s: Work) -> Work
    requires { i + 3 < 64 }
    ensures { result ≡ four_rounds i (S.words w.now) s }
{
    let s1 = round(i, w, s);
    let s2 = round(i + 1, w, s1);
    let s3 = round(i + 2, w, s2);
    round(i + 3, w, s3)
}
