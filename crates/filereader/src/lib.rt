// A reader over a batch file, which hands out each body as a part of the file: nothing is copied.
#![tactic(auto)]

ghost use Rattle.std.specs.Prelude.{◌≡◌};
ghost use Rattle.batchfile.specs.File.{places_found};
ghost use Rattle.filereader.specs.Reading.{PartOf, HandsOut, reader_over};

use batchfile::{Kind, Places};

// The file, and where its five bodies begin.
#[derive(Clone, Copy)]
pub struct Reader<'a> {
    pub file: &'a [u8],
    pub places: Places,
}

// Where the bodies of a file begin.
fn find_places(file: &[u8]) -> Places
    ensures { result ≡ places_found file.now }
{
    match batchfile::find(file) {
        Ok(found) => found.places,
        Err(_) => Places::nowhere(file.len()),
    }
}

// Reads a file, whatever it holds.
pub fn read<'a>(file: &'a [u8]) -> Reader<'a>
    ensures { result ≡ reader_over file.entry }
{
    Reader {
        file,
        places: find_places(file),
    }
}

// The part of a file from a to e: cut at the file's end, and empty where e is not above a.
fn part_of<'a>(file: &'a [u8], a: usize, e: usize) -> &'a [u8]
    ensures { PartOf file.entry a e result }
{
    let start = a.min(file.len());
    &file[start..e.clamp(start, file.len())]
}

// The body of a kind: 1 the setup, 2 the head, 3 the correction, 4 the key, 5 the check. Any other number has none, as `HandsOut` promises, so the
// kind is a number here.
pub fn body<'a>(r: Reader<'a>, kind: u32) -> &'a [u8]
    ensures { HandsOut r.entry kind result }
{
    let p = r.places;
    let end = r.file.len();
    match Kind::try_from(kind) {
        Ok(Kind::Setup) => part_of(r.file, p.setup, p.head),
        Ok(Kind::Head) => part_of(r.file, p.head, p.correction),
        Ok(Kind::Correction) => part_of(r.file, p.correction, p.key),
        Ok(Kind::Key) => part_of(r.file, p.key, p.check),
        Ok(Kind::Check) => part_of(r.file, p.check, end),
        Err(_) => part_of(r.file, end, end),
    }
}

// The same of a file. Its parameters are plain, so whoever calls it needs no proof by hand.
pub fn body_of<'a>(file: &'a [u8], kind: u32) -> &'a [u8]
    ensures { HandsOut (reader_over file.entry) kind result }
{
    body(read(file), kind)
}
