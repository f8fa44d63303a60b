// The reader of key books.
//
// The entry `read` takes any bytes and answers count, q, n and m, or the refusal: Form for under 7 bytes or a count above 2,000,
// Value for q, n or m, Form for the length or an offset of the table, then LabelHalf or LabelOrder for the first label at fault,
// then Element for a key byte. What it does not refuse is a `Book`.
#![tactic(auto)]

ghost use Rattle.std.specs.Prelude.{◌≡◌, ◌+◌, ◌*◌, ◌≤◌, length, IfOk};
ghost use Rattle.refusal.specs.Refusal.{number_of};
ghost use Rattle.book_form.specs.Book.{key_of, front_in, table_in, fields_in};
ghost use Rattle.book_reader.specs.Reader.{offset_refusal, offsets_refusal, front_refusal, book_refusal};

use book_form::{Front, Labels, of_cards, table_length};
use field::all_below;
use refusal::{Refusal, require};
use slices::{byte_at, number, part};

// The count, q, n and m of a book.
#[tactic(auto, unfolding(book_form::specs::Book::front_in))]
pub fn front_of(bytes: &[u8]) -> Front
    ensures { result ≡ front_in bytes.now }
{
    Front {
        count: number(bytes),
        q: byte_at(bytes, 4),
        n: byte_at(bytes, 5),
        m: byte_at(bytes, 6),
    }
}

// The table of contents, as much as there is of it.
#[tactic(auto, unfolding(book_form::specs::Book::front_in, book_form::specs::Book::table_in))]
pub fn table_of(bytes: &[u8]) -> &[u8]
    ensures { result.now ≡ table_in bytes.now }
{
    part(bytes, 7, table_length(number(bytes)))
}

// The labels in it.
pub fn labels_of(bytes: &[u8]) -> Labels<'_>
    ensures { (result.bytes.now ≡ table_in bytes.now) × (result.each ≡ 14) }
{
    Labels {
        bytes: table_of(bytes),
        each: 14,
    }
}

// What stands behind the table: the keys.
#[tactic(auto, using(slices::proofs::Parts::part_all), unfolding(book_form::specs::Book::front_in, book_form::specs::Book::fields_in))]
pub fn keys_of(bytes: &[u8]) -> &[u8]
    ensures { result.now ≡ (fields_in bytes.now).keys }
{
    let at = 7 + table_length(number(bytes));
    part(bytes, at, bytes.len())
}

// The key of card i, counted from 0.
#[tactic(auto, unfolding(book_form::specs::Book::key_of))]
pub fn key_at(bytes: &[u8], i: u32) -> &[u8]
    ensures { result.now ≡ key_of (front_in bytes.now) (fields_in bytes.now).keys i }
{
    let m = front_of(bytes).m;
    part(keys_of(bytes), of_cards(i, m), usize::from(m))
}

// Refuses card i's offset. From u32 to usize there is only a cast.
#[tactic(auto, using(slices::proofs::Parts::part_count), unfolding(crate::specs::Reader::offset_refusal))]
fn check_offset(table: &[u8], front: Front, i: u32) -> Result<(), Refusal>
    requires { i * 14 + 14 ≤ length table.now }
    ensures { number_of result ≡ offset_refusal front table.now i }
{
    let at = of_cards(i, 14);
    let entry = &table[at..at + 14];
    let offset = number(&entry[10..14]);
    require(offset as usize == front.offset_of(i), Refusal::Form)
}

// Refuses the offsets of all cards: the first that is wrong decides.
fn check_offsets(table: &[u8], front: Front) -> Result<(), Refusal>
    requires { front.count * 14 ≤ length table.now }
    ensures { number_of result ≡ offsets_refusal front table.now }
{
    for i in 0..front.count {
        check_offset(table, front, i)?;
    }
    Ok(())
}

// Refuses what stands before the table.
#[tactic(auto, using(refusal::proofs::Answers::chain), unfolding(crate::specs::Reader::front_refusal))]
fn check_front(front: Front, length: usize) -> Result<(), Refusal>
    ensures { number_of result ≡ front_refusal front length }
{
    require(7 <= length, Refusal::Form)?;
    front.check_values()?;
    require(length == front.book_length(), Refusal::Form)
}

// Refuses a book's bytes, but those that are well-formed.
fn check(bytes: &[u8]) -> Result<(), Refusal>
    ensures { number_of result ≡ book_refusal bytes.now }
{
    let front = front_of(bytes);
    check_front(front, bytes.len())?;
    check_offsets(table_of(bytes), front)?;
    labels_of(bytes).check(front.count)?;
    require(all_below(front.q, keys_of(bytes)), Refusal::Element)
}

// The bytes of a well-formed book.
#[derive(Clone, Copy)]
pub struct Book<'a> {
    pub bytes: &'a [u8],
    ghost well_formed: { book_refusal bytes.now ≡ 0 },
}

impl<'a> Book<'a> {
    // The book that the bytes are, or why they are none.
    pub fn new(bytes: &'a [u8]) -> Result<Book<'a>, Refusal>
        ensures refusal { number_of result ≡ book_refusal bytes.now }
        ensures bytes { IfOk result (λ book. book.bytes.now ≡ bytes.now) }
    {
        check(bytes)?;
        Ok(Book { bytes })
    }
}

// Reads a book: any bytes.
pub fn read(bytes: &[u8]) -> Result<Front, Refusal>
    ensures refusal { number_of result ≡ book_refusal bytes.now }
    ensures front { IfOk result (λ front. front ≡ front_in bytes.now) }
{
    Book::new(bytes)?;
    Ok(front_of(bytes))
}
