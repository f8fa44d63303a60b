// Groups and cases, as they stand in a file.
ghost use Rattle.std.specs.Prelude.{◌≡◌, ◌<◌, length, true, IfSome};
ghost use Rattle.cases.specs.Run.{SameStart};

use crate::kind::Kind;
use crate::reader::Reader;
use crate::small::Small;

// A case: the call, the number that it must answer, what every byte of its outputs is before it, and its pieces, with what follows.
#[derive(Clone, Copy)]
pub struct Case<'a> {
    pub kind: Kind,
    pub number: u8,
    pub fill: u8,
    pub pieces: Reader<'a>,
}

impl Case<'_> {
    // Whether a call went as the case says: it answered the number, and put out what is expected.
    pub fn agrees(&self, number: u8, expected: &Small, out: &[u8]) -> bool
        ensures same_start { result ≡ true → SameStart out.now expected.now.bytes expected.now.length }
        ensures number_agrees_value { result ≡ true → number ≡ self.now.number }
    {
        number == self.number && expected.begins(out)
    }
}

// A group's name, and how many cases follow, one at least.
#[derive(Clone, Copy)]
pub struct Group<'a> {
    pub name: &'a [u8],
    pub cases: usize,
}

// The head of the next group, if a byte of a case follows.
pub fn next_group<'a>(file: &mut Reader<'a>) -> Option<Group<'a>>
    ensures { IfSome result (λ _. length file.new.rest.now < length file.old.rest.now) }
{
    let length = *file.bytes(1)?.first()?;
    let name = file.bytes(usize::from(length))?;
    let cases = file.number()?;
    if cases == 0 || file.rest.is_empty() {
        return None;
    }
    Some(Group { name, cases })
}

// The next case, if it is of a call and whole.
pub fn next_case<'a>(file: &mut Reader<'a>) -> Option<Case<'a>>
    ensures { IfSome result (λ _. length file.new.rest.now < length file.old.rest.now) }
{
    let [kind, number, fill] = file.bytes(3)? else {
        return None;
    };
    let kind = Kind::try_from(*kind).ok()?;
    let pieces = *file;
    file.skip(kind.pieces())?;
    Some(Case {
        kind,
        number: *number,
        fill: *fill,
        pieces,
    })
}
