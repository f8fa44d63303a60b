// The text of the program book as bytes in a lent buffer of 428,064, which holds the longest, and how long it is.
//
// The longest has 2,000 cards with keys of 96 bytes, 214 a line; 64 bytes are left for the first line, which has at most 29.
#![tactic(auto)]

ghost use Rattle.std.specs.Prelude.{◌≡◌, ◌++◌, ◌+◌, ◌*◌, ◌≤◌, ◌<◌, length};
ghost use Rattle.slices.specs.Slices.{placed, joined};
ghost use Rattle.text.specs.Writer.{Appends};
ghost use Rattle.book_form.specs.Book.{front_in};
ghost use Rattle.book_lookup.specs.Lookup.{lookup_of, answered};
ghost use Rattle.iccid.specs.Iccid.{label_from};
ghost use Rattle.book_lines.specs.BookLines.{card_line, sizes_line, card_of, book_text, key_line, lookup_text};

use book_form::Front;
use book_lookup::lookup;
use book_reader::{Book, front_of, key_at, labels_of};
use hex_text::append_hex;
use iccid::{append_label, label_of};
use refusal::Refusal;
use report_lines::refused_line;
use slices::part;
use text::Writer;

// `8944100000000000013 0506`
#[tactic(auto, using(text::proofs::Appending::pieces), unfolding(crate::specs::BookLines::card_line, report_lines::specs::ReportLines::space_word, text::specs::Text::line_feed))]
fn card_line<'a>(text: &mut Writer, label: &'a [u8], key: &'a [u8])
    requires { text.old.written + 2 * length label.now + 2 * length key.now + 2 ≤ length text.old.buffer.now }
    ensures puts { Appends text.old text.new (card_line label.now key.now) }
    ensures most { text.new.written ≤ text.old.written + 2 * length label.now + 2 * length key.now + 2 }
{
    append_label(text, label);
    text.append(b" ");
    append_hex(text, key);
    text.append(b"\n");
}

// `q 7 n 2 m 2 count 3`
#[tactic(auto, using(text::proofs::Appending::pieces), unfolding(crate::specs::BookLines::sizes_line, crate::specs::BookLines::q_word, crate::specs::BookLines::n_word, crate::specs::BookLines::m_word, crate::specs::BookLines::count_word, text::specs::Text::line_feed))]
fn sizes_line(text: &mut Writer, front: Front)
    requires { text.old.written + 29 ≤ length text.old.buffer.now }
    ensures puts { Appends text.old text.new (sizes_line front) }
    ensures most { text.new.written ≤ text.old.written + 29 }
{
    text.append_numbers(b"q ", front.q, b" n ", front.n);
    text.append_number(b" m ", front.m);
    text.append_count(b" count ", front.count);
    text.append(b"\n");
}

// Puts the line of card i.
#[tactic(auto, using(crate::proofs::CardLines::label_short, crate::proofs::CardLines::key_short, crate::proofs::CardLines::short_keys), unfolding(crate::specs::BookLines::card_of))]
fn append_card(text: &mut Writer, book: &Book, i: u32)
    requires { text.old.written + 214 ≤ length text.old.buffer.now }
    ensures puts { Appends text.old text.new (card_of book.now.bytes.now i) }
    ensures most { text.new.written ≤ text.old.written + 214 }
{
    card_line(text, labels_of(book.bytes).at(i), key_at(book.bytes, i));
}

// The numbers of a book, then a line a card.
#[tactic(auto, using(text::proofs::Appending::pieces, crate::proofs::CardLines::cards))]
fn all_cards(text: &mut Writer, book: &Book)
    requires { text.old.written + 428064 ≤ length text.old.buffer.now }
    ensures { Appends text.old text.new
        (sizes_line (front_in book.now.bytes.now) ++ joined (front_in book.now.bytes.now).count (card_of book.now.bytes.now)) }
{
    let front = front_of(book.bytes);
    sizes_line(text, front);
    for card in 0..front.count {
        append_card(text, book, card);
    }
}

// Puts all cards of a book, or its refusal.
#[tactic(auto, using(refusal::proofs::Answers::refuses), unfolding(crate::specs::BookLines::book_text))]
fn append_book(text: &mut Writer, book: &[u8])
    requires { text.old.written + 428064 ≤ length text.old.buffer.now }
    ensures { Appends text.old text.new (book_text book.now) }
{
    match Book::new(book) {
        Ok(book) => all_cards(text, &book),
        Err(refusal) => refused_line(text, u8::from(refusal)),
    }
}

// All cards of a book, or its refusal.
pub fn book_text(book: &[u8], text: &mut [u8; 428064]) -> usize
    ensures { (text.new ≡ placed text.old 0 (book_text book.now)) × (result ≡ length (book_text book.now)) }
{
    let mut writer = Writer::new(text);
    append_book(&mut writer, book);
    writer.written()
}

// Looks the label of an ICCID up.
fn looked_up<'a>(book: &'a [u8], iccid: &'a [u8]) -> Result<Option<[u8; 96]>, Refusal>
    ensures { answered result ≡ lookup_of book.now (label_from iccid.now) }
{
    match label_of(iccid) {
        Some(label) => lookup(book, &label),
        None => lookup(book, &[]),
    }
}

// A key alone on its line.
#[tactic(auto, using(text::proofs::Appending::pieces), unfolding(crate::specs::BookLines::key_line, text::specs::Text::line_feed))]
fn key_line(text: &mut Writer, key: &[u8])
    requires { text.old.written + 2 * length key.now + 1 ≤ length text.old.buffer.now }
    ensures { Appends text.old text.new (key_line key.now) }
{
    append_hex(text, key);
    text.append(b"\n");
}

// Puts the key of the card with an ICCID, of m bytes, or `absent`, or the refusal.
#[tactic(auto, unfolding(crate::specs::BookLines::lookup_text, crate::specs::BookLines::answer_line, crate::specs::BookLines::absent_line, book_lookup::specs::Lookup::no_key))]
fn append_lookup<'a>(text: &mut Writer, book: &'a [u8], iccid: &'a [u8])
    requires { text.old.written + 193 ≤ length text.old.buffer.now }
    ensures { Appends text.old text.new (lookup_text book.now iccid.now) }
{
    match looked_up(book, iccid) {
        Ok(Some(key)) => key_line(text, part(&key, 0, usize::from(front_of(book).m))),
        Ok(None) => text.append(b"absent\n"),
        Err(refusal) => refused_line(text, u8::from(refusal)),
    }
}

// The key of the card with an ICCID, of m bytes, or `absent`, or the refusal.
pub fn lookup_text<'a>(book: &'a [u8], iccid: &'a [u8], text: &mut [u8; 428064]) -> usize
    ensures { (text.new ≡ placed text.old 0 (lookup_text book.now iccid.now))
        × (result ≡ length (lookup_text book.now iccid.now)) }
{
    let mut writer = Writer::new(text);
    append_lookup(&mut writer, book, iccid);
    writer.written()
}
