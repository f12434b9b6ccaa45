// The line that the program foldprint prints, as a function of its input.
#![tactic(auto)]

mod text;

ghost use Rattle.std.specs.Prelude.{◌≡◌, ◌<◌};
ghost use Rattle.foldtext.specs.Line.{is_input, hex_digit, fold_line, refused_line, line_of, Holds};

pub use text::Text;

// Whether n bytes are a key and 1 to 16 words.
#[tactic(auto, unfolding(crate::specs::Line::is_input))]
fn is_input(n: usize) -> bool
    ensures { result ≡ is_input n }
{
    16 <= n && n <= 136 && n % 8 == 0
}

pub fn digit(d: u64) -> u8
    requires { d < 16 }
    ensures { result ≡ hex_digit d }
{
    if d < 10 {
        b'0' + d as u8
    } else {
        b'a' - 10 + d as u8
    }
}

// The digits of x from the last to the first, before a newline.
fn fold_line(x: u64) -> [u8; 17]
    ensures { result ≡ fold_line x }
{
    let mut out = [b'\n'; 17];
    let mut rest = x;
    for i in (0..16).rev() {
        out[i] = digit(rest % 16);
        rest = rest / 16;
    }
    out
}

fn refused() -> Text<17>
    ensures { Holds result refused_line }
{
    Text {
        len: 8,
        bytes: *b"refused\n\0\0\0\0\0\0\0\0\0",
    }
}

// The line for an input of any length.
#[tactic(auto, using(crate::proofs::LineLaws::input_long))]
pub fn line(s: &[u8]) -> Text<17>
    ensures { Holds result (line_of s.now) }
{
    if !is_input(s.len()) {
        return refused();
    }
    let key = words::load64(s, 0);
    Text {
        len: 17,
        bytes: fold_line(gf64::fold(key, &s[8..])),
    }
}
