// Where the table and the keys of a book stand.
ghost use Rattle.std.specs.Prelude.{◌≡◌, ◌*◌, ◌≤◌};
ghost use Rattle.book_form.specs.Book.{offset_of, book_length};

// The bytes of so many cards, with `each` a card. From u32 to usize there is only a cast, and `try_from` with a branch that no run
// takes; so too in the crates of books above.
#[tactic(auto, using(crate::proofs::LabelPlaces::cards_fit))]
pub fn of_cards(count: u32, each: u8) -> usize
    ensures { (result ≡ count * each) × (result ≤ 1095216660225) }
{
    count as usize * usize::from(each)
}

// The bytes of the table: a label and an offset a card.
pub fn table_length(count: u32) -> usize
    ensures { (result ≡ count * 14) × (result ≤ 1095216660225) }
{
    of_cards(count, 14)
}

// What stands before the table.
#[derive(Clone, Copy, Debug, PartialEq, Eq)]
pub struct Front {
    pub count: u32,
    pub q: u8,
    pub n: u8,
    pub m: u8,
}

impl Front {
    // Where the key of card i stands, counted from 0.
    #[tactic(auto, unfolding(crate::specs::Book::offset_of))]
    pub fn offset_of(self, i: u32) -> usize
        ensures { (result ≡ offset_of self i) × (result ≤ 3000000000000) }
    {
        7 + table_length(self.count) + of_cards(i, self.m)
    }

    // The bytes of a whole book.
    #[tactic(auto, unfolding(crate::specs::Book::book_length))]
    pub fn book_length(self) -> usize
        ensures { (result ≡ book_length self) × (result ≤ 3000000000000) }
    {
        self.offset_of(self.count)
    }
}
