// The count of a book, and its q, n and m.
ghost use Rattle.std.specs.Prelude.{◌≡◌};
ghost use Rattle.refusal.specs.Refusal.{number_of};
ghost use Rattle.book_form.specs.Values.{values_refusal};

use crate::layout::Front;
use refusal::{Refusal, require};
use system::are_sizes;

impl Front {
    // Refuses numbers that are not among their values.
    #[tactic(auto, using(refusal::proofs::Answers::chain), unfolding(crate::specs::Values::values_refusal))]
    pub fn check_values(self) -> Result<(), Refusal>
        ensures { number_of result ≡ values_refusal self }
    {
        require(self.count <= 2000, Refusal::Form)?;
        require(are_sizes(self.q, self.n, self.m), Refusal::Value)
    }
}
