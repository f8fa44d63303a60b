// The key of a card by its label, in a key book.
//
// The entry `lookup` takes any bytes. It answers the key in 96 bytes, zero beyond m, or that no card has the label, or the
// refusal: the book's own, then Length for a label that has not ten bytes, then LabelHalf for a wrong half.
#![tactic(auto)]

ghost use Rattle.std.specs.Prelude.{◌≡◌, IfOk};
ghost use Rattle.refusal.specs.Refusal.{number_of, counted};
ghost use Rattle.book_form.specs.Book.{front_in, table_in};
ghost use Rattle.book_lookup.specs.Lookup.{place_in, key_in, lookup_refusal, lookup_of, answered};

use book_reader::{Book, key_at, table_of};
use field::from_slice;
use label::{is_below, is_label};
use refusal::{Refusal, require};
use slices::equal;

// Which card has this label, counted from 0. The labels rise, so a half of the cards that are left is left out each time.
// There are at most 2,000: `try_from` would have a branch that no run takes.
fn place_of(book: &Book, label: &[u8]) -> Option<u32>
    ensures { counted result ≡ place_in (table_in book.now.bytes.now) (front_in book.now.bytes.now).count label.now }
{
    let (entries, _) = table_of(book.bytes).as_chunks::<14>();
    let place = entries.partition_point(|entry| is_below(&entry[..10], label));
    let entry = entries.get(place)?;
    equal(&entry[..10], label).then_some(place as u32)
}

// The key of card i by value.
#[tactic(auto, unfolding(crate::specs::Lookup::key_in))]
fn key_of(book: &[u8], i: u32) -> [u8; 96]
    ensures { result ≡ key_in book.now i }
{
    from_slice(key_at(book, i))
}

// The book of a call, or why the call is refused.
#[tactic(auto, using(refusal::proofs::Answers::chain), unfolding(crate::specs::Lookup::lookup_refusal))]
fn check_call<'a>(book: &'a [u8], label: &[u8]) -> Result<Book<'a>, Refusal>
    ensures refusal { number_of result ≡ lookup_refusal book.now label.now }
    ensures bytes { IfOk result (λ checked. checked.bytes.now ≡ book.now) }
{
    let checked = Book::new(book)?;
    require(label.len() == 10, Refusal::Length)?;
    require(is_label(label), Refusal::LabelHalf)?;
    Ok(checked)
}

// Looks a label up in a book: any bytes.
#[tactic(auto, using(crate::proofs::Lookups::answered_refused, crate::proofs::Lookups::answered_none, crate::proofs::Lookups::place_there))]
pub fn lookup<'a>(book: &'a [u8], label: &'a [u8]) -> Result<Option<[u8; 96]>, Refusal>
    ensures answer { answered result ≡ lookup_of book.now label.now }
    ensures refusal { number_of result ≡ lookup_refusal book.now label.now }
{
    let checked = check_call(book, label)?;
    let Some(i) = place_of(&checked, label) else {
        return Ok(None);
    };
    Ok(Some(key_of(book, i)))
}
