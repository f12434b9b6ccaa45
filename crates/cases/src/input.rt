// The records of a program's input.
ghost use Rattle.std.specs.Prelude.{◌≡◌, length, MatchOption};
ghost use Rattle.std.specs.Iterator.{at_most};
ghost use Rattle.cases.specs.Records.{Cut, FirstRecord};

// A record: its kind, a byte that each program reads by itself, and what follows its length.
#[derive(Clone, Copy)]
pub struct Record<'a> {
    pub kind: u8,
    pub payload: &'a [u8],
}

// The records that stand one after the other, up to the first that is cut.
#[derive(Clone, Copy)]
pub struct Records<'a> {
    pub rest: &'a [u8],
}

impl<'a> Iterator for Records<'a> {
    type Item = Record<'a>;

    ghost next_gives = { λ s r t. MatchOption r (Cut s.rest.now) (λ x. FirstRecord s.rest.now x.kind x.payload.now t.rest.now) };

    ghost remaining = { λ s. at_most (length s.rest.now) };

    fn next(&mut self) -> Option<Record<'a>> {
        let rest = self.rest;
        if rest.len() < 5 {
            return None;
        }
        let end = 5 + words::load32(rest, 1) as usize;
        if rest.len() < end {
            return None;
        }
        self.rest = &rest[end..];
        Some(Record {
            kind: rest[0],
            payload: &rest[5..end],
        })
    }
}
