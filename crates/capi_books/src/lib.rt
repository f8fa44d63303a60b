// The reader and the lookup of key books for the C interface, where outputs are lent.
//
// Each takes any bytes. On a refusal the output is what it was.
#![tactic(auto)]

ghost use Rattle.std.specs.Prelude.{◌≡◌, length, take};
ghost use Rattle.refusal.specs.Refusal.{kept, number_of};
ghost use Rattle.book_lookup.specs.Lookup.{lookup_of};
ghost use Rattle.capi_books.specs.Numbers.{book_fields_refusal, lookup_number};

use book_lookup::lookup;
use book_reader::read;
use refusal::{Refusal, require};

// A book's first seven bytes.
#[tactic(auto, using(refusal::proofs::Answers::chain), unfolding(crate::specs::Numbers::book_fields_refusal))]
pub fn read_fields(book: &[u8], fields: &mut [u8]) -> Result<(), Refusal>
    ensures { (number_of result ≡ book_fields_refusal book.now (length fields.old))
        × (fields.new ≡ kept (number_of result) fields.old (take 7 book.now)) }
{
    require(fields.len() == 7, Refusal::Length)?;
    read(book)?;
    let first = &book[..7];
    fields.copy_from_slice(first);
    Ok(())
}

// The bytes of a key's output.
const KEY_LENGTH: usize = 96;

// The key of the card with this label. The C interface needs one number: 0 where it is found, 255 where it is absent, else the refusal's.
pub fn lookup_key<'a>(book: &'a [u8], label: &'a [u8], key: &mut [u8]) -> u8
    ensures { (result ≡ lookup_number book.now label.now (length key.old))
        × (key.new ≡ kept result key.old (lookup_of book.now label.now).key) }
{
    if key.len() != KEY_LENGTH {
        return u8::from(Refusal::Length);
    }
    match lookup(book, label) {
        Ok(Some(found)) => {
            key.copy_from_slice(&found);
            0
        }
        Ok(None) => 255,
        Err(refusal) => u8::from(refusal),
    }
}
