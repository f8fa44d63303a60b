// Shows a key book that lies in a file: with the argument FILE its numbers and all cards, with FILE ICCID the key of one card.
//
// Standard output has `q 7 n 2 m 2 count 3` and then a line a card, its label's digits and its key; or the one key, or `absent`;
// or `refused` and the number. Keys are hexadecimal digits, two a byte. An ICCID has twenty characters, or nineteen, which stand
// for the label with F at its end. Where the arguments or the file are no good, standard error says why, and standard output
// stays empty. The exit status is 0 in every case.
#![tactic(auto)]

use book_lines::{book_text, lookup_text};
use files::{count_words, load_front, print};
use slices::{part, zeros};
use std::rt::{Env, Files};

// How many words there are with a file, and with an ICCID behind it, the program's name among them.
const WITH_FILE: usize = 2;

const WITH_ICCID: usize = 3;

// Room for the longest text.
const TEXT: usize = 428064;

// Room for the longest book, 2,000 cards with m = 96 in 220,007 bytes, and for one byte more. A longer file is read up to there:
// no book has as many bytes, so what was read is refused as the file is.
const BOOK: usize = 220008;

fn main(rt: HostRuntime) {
    let mut text = zeros::<TEXT>();
    let words = count_words(&rt, WITH_ICCID + 1);
    let written = match words {
        WITH_FILE | WITH_ICCID => shown(&rt, words, &mut text),
        _ => usage(&rt),
    };
    if let Some(length) = written {
        print(&rt, part(&text, 0, length));
    }
}

// Answers that there is no text.
fn usage<R: Eprint>(rt: &R) -> Option<usize> {
    let _ = eprintln!(rt; "usage: book FILE");
    let _ = eprintln!(rt; "       book FILE ICCID");
    None
}

// Reads the book, shows all of it, or one card where there is an ICCID, and answers how long the text is.
fn shown<R: Env + Files + Eprint>(rt: &R, words: usize, text: &mut [u8; TEXT]) -> Option<usize> {
    let mut buffer = zeros::<BOOK>();
    let length = load_front(rt, 1, b"book: argument", &mut buffer)?;
    let book = part(&buffer, 0, length);
    if words == WITH_FILE {
        Some(book_text(book, text))
    } else {
        Some(one_card(rt, book, text))
    }
}

// Shows one card. An ICCID of more than 32 characters is taken for none, and refused as any other of a wrong length.
fn one_card<R: Env>(rt: &R, book: &[u8], text: &mut [u8; TEXT]) -> usize {
    let mut iccid = [0u8; 32];
    let length = rt.arg(2, &mut iccid).unwrap_or(0);
    lookup_text(book, part(&iccid, 0, length), text)
}
