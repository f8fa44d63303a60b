// The writer of key books.
//
// The entry `write` takes the count, q, n and m, all labels and all keys one behind the other, and an output of the exact
// length. On a refusal the output is what it was: Form for a count above 2,000, Value for q, n or m, Length for a length, the
// output's too, then LabelHalf or LabelOrder for the first label at fault, then Element for a key byte.
#![tactic(auto)]

ghost use Rattle.std.specs.Prelude.{◌≡◌, ◌+◌, ◌*◌, ◌≤◌, ◌<◌, ◌++◌, length, take, IfOk};
ghost use Rattle.slices.specs.Slices.{placed, joined};
ghost use Rattle.refusal.specs.Refusal.{kept, number_of};
ghost use Rattle.book_form.specs.Book.{book_length, entry, written};
ghost use Rattle.book_writer.specs.Writer.{front_of, fields_of, lengths_refusal, write_refusal};

use book_form::{Front, Labels, of_cards};
use field::all_below;
use refusal::{Refusal, require};
use slices::{put, word};

// Refuses by all that the values and the lengths decide.
#[tactic(auto, using(refusal::proofs::Answers::chain), unfolding(crate::specs::Writer::lengths_refusal))]
fn check_lengths(front: Front, labels: usize, keys: usize, out: usize) -> Result<(), Refusal>
    ensures { number_of result ≡ lengths_refusal front labels keys out }
{
    front.check_values()?;
    require(labels == of_cards(front.count, 10), Refusal::Length)?;
    require(keys == of_cards(front.count, front.m), Refusal::Length)?;
    require(out == front.book_length(), Refusal::Length)
}

// The cards of a book that is not refused: all labels and all keys, one behind the other.
#[derive(Clone, Copy)]
struct Cards<'a> {
    front: Front,
    labels: &'a [u8],
    keys: &'a [u8],
    ghost labels_length: { length labels.now ≡ front.count * 10 },
    ghost keys_length: { length keys.now ≡ front.count * front.m },
}

impl<'a> Cards<'a> {
    // The cards of a call, or why it is refused, by its output's length too: the first that applies.
    #[tactic(auto, using(refusal::proofs::Answers::chain, crate::proofs::BookTrip::lengths), unfolding(crate::specs::Writer::write_refusal))]
    fn new(front: Front, labels: &'a [u8], keys: &'a [u8], out: usize) -> Result<Cards<'a>, Refusal>
        ensures refusal { number_of result ≡ write_refusal (fields_of front labels.now keys.now) out }
        ensures fields { IfOk result (λ cards. fields_of cards.front cards.labels.now cards.keys.now ≡ fields_of front labels.now keys.now) }
    {
        check_lengths(front, labels.len(), keys.len(), out)?;
        let table = Labels {
            bytes: labels,
            each: 10,
        };
        table.check(front.count)?;
        require(all_below(front.q, keys), Refusal::Element)?;
        Ok(Cards {
            front,
            labels,
            keys,
        })
    }

    // Puts card i's label and offset at its place in the table.
    fn put_entry(&self, out: &mut [u8], i: u32)
        requires { (i < self.now.front.count) × (7 + self.now.front.count * 14 ≤ length out.old) }
        ensures { out.new ≡ placed out.old (7 + i * 14) (entry self.now.front self.now.labels.now i) }
    {
        let at = 7 + of_cards(i, 14);
        let offset = word(self.front.offset_of(i));
        let labels = Labels {
            bytes: self.labels,
            each: 10,
        };
        put(out, at, labels.at(i));
        put(out, at + 10, &offset);
    }

    // Puts the table of contents behind the first seven bytes.
    #[tactic(auto, using(crate::proofs::Table::table_start, crate::proofs::Table::table_step, crate::proofs::Table::table_end))]
    fn put_table(&self, out: &mut [u8])
        requires { 7 + self.now.front.count * 14 ≤ length out.old }
        ensures { (take (7 + self.now.front.count * 14) out.new
            ≡ take 7 out.old ++ joined self.now.front.count (entry self.now.front self.now.labels.now))
            × (length out.new ≡ length out.old) }
    {
        for i in 0..self.front.count {
            self.put_entry(out, i);
        }
    }

    // The first seven bytes, the table and the keys, one behind the other.
    fn put(&self, out: &mut [u8])
        requires { length out.old ≡ book_length self.now.front }
        ensures { out.new ≡ written (fields_of self.now.front self.now.labels.now self.now.keys.now) }
    {
        let count = self.front.count.to_le_bytes();
        let sizes = [self.front.q, self.front.n, self.front.m];
        put(out, 0, &count);
        put(out, 4, &sizes);
        self.put_table(out);
        put(out, self.front.offset_of(0), self.keys);
    }
}

// Writes the book of a delivery: the labels and the keys of all its cards.
#[tactic(auto, using(refusal::proofs::Answers::chain))]
pub fn write<'a>(
    count: u32,
    q: u8,
    n: u8,
    m: u8,
    labels: &'a [u8],
    keys: &'a [u8],
    out: &mut [u8],
) -> Result<(), Refusal>
    ensures { (number_of result ≡ write_refusal (fields_of (front_of count q n m) labels.now keys.now) (length out.old))
        × (out.new ≡ kept (number_of result) out.old (written (fields_of (front_of count q n m) labels.now keys.now))) }
{
    let front = Front { count, q, n, m };
    Cards::new(front, labels, keys, out.len())?.put(out);
    Ok(())
}
