// The labels of all cards: no wrong half, and rising.
ghost use Rattle.std.specs.Prelude.{◌≡◌, ◌+◌, ◌*◌, ◌≤◌, length};
ghost use Rattle.refusal.specs.Refusal.{number_of};
ghost use Rattle.book_form.specs.Labels.{label_at, is_above, label_refusal, labels_refusal};

use crate::layout::of_cards;
use label::{is_below, is_label};
use refusal::{Refusal, require};
use slices::part;

// The labels in some bytes, where one starts every `each`: 14 in a table, 10 where they stand alone.
#[derive(Clone, Copy)]
pub struct Labels<'a> {
    pub bytes: &'a [u8],
    pub each: u8,
}

impl<'a> Labels<'a> {
    // The label of card i.
    #[tactic(auto, unfolding(crate::specs::Labels::label_at))]
    pub fn at(&self, i: u32) -> &'a [u8]
        ensures { result.now ≡ label_at self.now.each self.now.bytes.now i }
    {
        part(self.bytes, of_cards(i, self.each), 10)
    }

    // The same where it is known to be whole. Three contracts ask so of i: an index's bound is no fact of the labels, which a type could hold.
    #[tactic(auto, using(slices::proofs::Parts::part_count), unfolding(crate::specs::Labels::label_at))]
    fn whole_at(&self, i: u32) -> &'a [u8]
        requires { i * self.now.each + 10 ≤ length self.now.bytes.now }
        ensures { result.now ≡ label_at self.now.each self.now.bytes.now i }
    {
        let at = of_cards(i, self.each);
        &self.bytes[at..at + 10]
    }

    // Whether the label of card i is above the one before.
    #[tactic(auto, using(crate::proofs::LabelPlaces::before_it), unfolding(crate::specs::Labels::is_above))]
    fn is_above(&self, i: u32) -> bool
        requires { i * self.now.each + 10 ≤ length self.now.bytes.now }
        ensures { result ≡ is_above self.now.each self.now.bytes.now i }
    {
        i == 0 || is_below(self.whole_at(i - 1), self.whole_at(i))
    }

    // Refuses the label of card i.
    #[tactic(auto, using(refusal::proofs::Answers::chain), unfolding(crate::specs::Labels::label_refusal))]
    fn check_label(&self, i: u32) -> Result<(), Refusal>
        requires { i * self.now.each + 10 ≤ length self.now.bytes.now }
        ensures { number_of result ≡ label_refusal self.now.each self.now.bytes.now i }
    {
        require(is_label(self.whole_at(i)), Refusal::LabelHalf)?;
        require(self.is_above(i), Refusal::LabelOrder)
    }

    // Refuses the labels of so many cards: the first at fault decides.
    pub fn check(&self, count: u32) -> Result<(), Refusal>
        requires { (count * self.now.each ≤ length self.now.bytes.now) × (10 ≤ self.now.each) }
        ensures { number_of result ≡ labels_refusal self.now.each count self.now.bytes.now }
    {
        for i in 0..count {
            self.check_label(i)?;
        }
        Ok(())
    }
}
