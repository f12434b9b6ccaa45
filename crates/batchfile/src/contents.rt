// The contents of a file: whether they are right, and what they say.
ghost use Rattle.std.specs.Prelude.{◌≡◌, true, ◌+◌, ◌^◌, ◌≤◌, ◌<◌, eqb, length, is_some, IfSome};
ghost use Rattle.sizes.specs.Sizes.{contents_length};
ghost use Rattle.answer.specs.Answer.{first_of};
ghost use Rattle.rules.specs.Orders.{head_right};
ghost use Rattle.batchfile.specs.File.{count_of, field_at, place_at, entry_right, contents_right, present, entry_of, kind_number, body_of, head_of, values_order, places_of};

use crate::{FileHead, Kind, Places, contents_length, values};
use answer::Refusal;

// A field of entry e: 0 its kind, 1 where its body begins, 2 its body's length.
#[tactic(auto, unfolding(crate::specs::File::field_at))]
fn field(file: &[u8], e: usize, i: usize) -> usize
    requires { (contents_length (e + 1) ≤ length file.now) × (e < 5) × (i < 3) }
    ensures { (result ≡ field_at file.now e i) × (result < 2 ^ 32) }
{
    words::load32(file, contents_length(e) + 4 * i) as usize
}

// Whether entry e of n has its kind, and its body begins at a place. (That n ≤ 5 and the like are said of a number: a value of a type for it
// would be made in each turn.)
#[tactic(auto, unfolding(crate::specs::File::entry_right))]
fn entry_right(file: &[u8], n: usize, e: usize, place: usize) -> bool
    requires { (n ≡ count_of file.now) × (n ≤ 5) × (e < n) × (contents_length n ≤ length file.now) × (place ≡ place_at file.now e) }
    ensures { result ≡ entry_right file.now e }
{
    field(file, e, 0) == e + 6 - n && field(file, e, 1) == place
}

// Whether the contents of a file of four or five entries are right: it has so many, and their bodies reach to its end.
fn counted_right(file: &[u8], n: usize) -> bool
    requires { (n ≡ count_of file.now) × (4 ≤ n) × (n ≤ 5) }
    ensures { result ≡ contents_right file.now }
{
    if file.len() < contents_length(n) {
        return false;
    }
    let mut place = contents_length(n);
    for e in 0..n {
        if !entry_right(file, n, e, place) {
            return false;
        }
        place += field(file, e, 2);
    }
    place == file.len()
}

// And of any file. Each count is named, so that the compiler makes straight code for each.
#[tactic(auto, unfolding(crate::specs::File::count_of))]
fn contents_right(file: &[u8]) -> bool
    ensures { result ≡ contents_right file.now }
{
    if file.len() < contents_length(0) {
        return false;
    }
    match words::load32(file, 0) {
        4 => counted_right(file, 4),
        5 => counted_right(file, 5),
        _ => false,
    }
}

// A file whose contents are right, and the number of its entries.
#[derive(Clone, Copy)]
pub struct Contents<'a> {
    file: &'a [u8],
    count: usize,
    pub ghost right: { contents_right file.now ≡ true },
    pub ghost counted: { count ≡ count_of file.now },
}

impl<'a> Contents<'a> {
    // Those of a file, where they are right.
    #[tactic(auto, unfolding(crate::specs::File::count_of))]
    pub fn of(file: &'a [u8]) -> Option<Self>
        ensures { (is_some result ≡ contents_right file.now) × IfSome result (λ contents. contents.file.now ≡ file.now) }
    {
        if !contents_right(file) {
            return None;
        }
        Some(Contents {
            file,
            count: words::load32(file, 0) as usize,
        })
    }

    // Whether a kind has an entry: of four, the setup has none.
    fn has(&self, kind: Kind) -> bool
        ensures { result ≡ present (count_of self.now.file.now) (kind_number kind) }
    {
        match kind {
            Kind::Setup => self.count == 5,
            _ => true,
        }
    }

    // A field of its entry.
    fn field_of(&self, kind: Kind, i: usize) -> usize
        requires { (present (count_of self.now.file.now) (kind_number kind) ≡ true) × (i < 3) }
        ensures { result ≡ field_at self.now.file.now (entry_of (count_of self.now.file.now) (kind_number kind)) i }
    {
        field(self.file, kind.number() + self.count - 6, i)
    }

    // Where its body begins. A setup that is absent begins where the head does.
    fn place_of(&self, kind: Kind) -> usize
        ensures { result ≡ place_at self.now.file.now (entry_of (count_of self.now.file.now) (kind_number kind)) }
    {
        if !self.has(kind) {
            return contents_length(self.count);
        }
        self.field_of(kind, 1)
    }

    // And its body's length.
    pub fn length_of(&self, kind: Kind) -> usize
        ensures { result ≡ length (body_of self.now.file.now (kind_number kind)) }
    {
        if !self.has(kind) {
            return 0;
        }
        self.field_of(kind, 2)
    }

    // A body, where it stands in the file.
    fn body(&self, kind: Kind) -> &'a [u8]
        ensures { result.now ≡ body_of self.now.file.now (kind_number kind) }
    {
        let at = self.place_of(kind);
        &self.file[at..at + self.length_of(kind)]
    }

    // The head's values.
    pub fn head(&self) -> FileHead
        requires { head_right (length (body_of self.now.file.now 2)) ≡ true }
        ensures { result ≡ head_of self.now.file.now }
    {
        FileHead::of(self.body(Kind::Head))
    }

    // The answer of the head's values, the bodies' lengths and the key, which is read where it stands.
    pub fn values_answer(&self, head: FileHead) -> Result<(), Refusal>
        requires { head ≡ head_of self.now.file.now }
        ensures { result ≡ first_of (values_order self.now.file.now) }
    {
        let key = self.place_of(Kind::Key);
        let end = key + self.length_of(Kind::Key);
        values::answer(
            head,
            self.has(Kind::Setup),
            self.length_of(Kind::Setup),
            self.length_of(Kind::Correction),
            &self.file[key..end],
            self.length_of(Kind::Check),
        )
    }

    // Where the bodies begin.
    pub fn places(&self) -> Places
        ensures { result ≡ places_of self.now.file.now }
    {
        Places {
            setup: self.place_of(Kind::Setup),
            head: self.place_of(Kind::Head),
            correction: self.place_of(Kind::Correction),
            key: self.place_of(Kind::Key),
            check: self.place_of(Kind::Check),
        }
    }
}
