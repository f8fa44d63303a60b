// Refusals: why a call is refused, and document 01's number of each. A call's answer is the first refusal that applies, in that
// document's order: a chain of `require(test, refusal)?`, in the definitions of `unless test number or_else ..`, with 0 for none.
#![tactic(auto)]

ghost use Rattle.std.specs.Prelude.{◌≡◌};
ghost use Rattle.refusal.specs.Refusal.{unless, number, number_of};

use std::error::Error;
use std::fmt;

// Why a call is refused. The discriminant is the number that document 01 gives it.
#[derive(Clone, Copy, Debug, PartialEq, Eq)]
pub enum Refusal {
    // q, n, m, N or the scheme is outside its values.
    Value = 1,
    // A slice's length is wrong.
    Length = 2,
    // An element is not below q.
    Element = 3,
    // A challenge is outside its values.
    Challenge = 4,
    // F(s) is not v.
    Secret = 5,
    // A record or a book is not laid out as one.
    Form = 6,
    // A system or a record does not belong to the session or to the other records.
    Mismatch = 7,
    // A round of an audited record is rejected.
    Rejected = 8,
    // No round has the full set of challenges.
    NoFullSet = 9,
    // The call is not the one due.
    NotDue = 10,
    // The session is closed.
    Closed = 11,
    // A half of a label's byte is wrong.
    LabelHalf = 12,
    // A label is not above the one before.
    LabelOrder = 13,
}

impl From<Refusal> for u8 {
    ghost from_gives = { λ refusal byte. byte ≡ number refusal };

    // An enum's number is read by a cast alone.
    fn from(refusal: Refusal) -> u8 {
        refusal as u8
    }
}

impl fmt::Display for Refusal {
    fn fmt<W: fmt::Write>(&self, f: &mut fmt::Formatter<W>) -> fmt::Result {
        let number = u8::from(*self);
        write!(f, "refused {number}")
    }
}

impl Error for Refusal {}

// Refuses where the test fails.
#[tactic(auto, unfolding(crate::specs::Refusal::unless))]
pub fn require(test: bool, refusal: Refusal) -> Result<(), Refusal>
    ensures { number_of result ≡ unless test (number refusal) }
{
    if test { Ok(()) } else { Err(refusal) }
}

// The number of an answer, 0 where it is no refusal.
pub fn number_of<T: Drop>(answer: Result<T, Refusal>) -> u8
    ensures { result ≡ number_of answer }
{
    match answer {
        Ok(_) => 0,
        Err(refusal) => u8::from(refusal),
    }
}
