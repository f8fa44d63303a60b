// Words and numbers as bytes in a lent text, each put behind what was written.
//
// Nothing here refuses: whoever calls lends the room.
#![tactic(auto)]

ghost use Rattle.std.specs.Prelude.{◌≡◌, ◌++◌, ◌+◌, ◌≤◌, length};
ghost use Rattle.text.specs.Text.{last_digit, decimal, numbered};
ghost use Rattle.text.specs.Writer.{Appends};

use slices::{part, put};

// A lent text, and how many bytes of it are written. Each call asks for the room of what it puts, which is no fact of the writer.
#[derive(Drop)]
pub struct Writer<'a> {
    buffer: &'a mut [u8],
    written: usize,
}

impl<'a> Writer<'a> {
    // Nothing is written.
    pub fn new(buffer: &'a mut [u8]) -> Writer<'a>
        ensures { (result.buffer.now ≡ buffer.old) × (result.buffer.ghost_name ≡ buffer.entry.ghost_name) × (result.written ≡ 0) }
    {
        Writer { buffer, written: 0 }
    }

    // How many bytes are written.
    pub fn written(&self) -> usize
        ensures { result ≡ self.now.written }
    {
        self.written
    }

    // Puts s.
    pub fn append(&mut self, s: &[u8])
        requires { self.old.written + length s.now ≤ length self.old.buffer.now }
        ensures { Appends self.old self.new s.now }
    {
        put(self.buffer, self.written, s);
        self.written += s.len();
    }

    // Puts a number below 10,000.
    #[tactic(auto, using(crate::proofs::Decimal::decimal_last))]
    fn append_decimal(&mut self, k: u32)
        requires { self.old.written + length (decimal k) ≤ length self.old.buffer.now }
        ensures { Appends self.old self.new (decimal k) }
    {
        let digits = [
            last_digit(k / 1000),
            last_digit(k / 100),
            last_digit(k / 10),
            last_digit(k),
        ];
        let count = digit_count(k);
        self.append(part(&digits, 4 - count, count));
    }

    // Puts a word and a number below 10,000, where there is room for its digits.
    #[tactic(auto, using(crate::proofs::Appending::pieces, crate::proofs::Appending::numbered_length), unfolding(crate::specs::Text::numbered))]
    fn append_numbered(&mut self, word: &[u8], k: u32)
        requires { self.old.written + length (numbered word.now k) ≤ length self.old.buffer.now }
        ensures { Appends self.old self.new (numbered word.now k) }
    {
        self.append(word);
        self.append_decimal(k);
    }

    // Puts a word and a number of at most three digits.
    #[tactic(auto, using(crate::proofs::Appending::numbered_length, crate::proofs::Decimal::decimal_short))]
    pub fn append_number(&mut self, word: &[u8], k: u8)
        requires { self.old.written + length word.now + 3 ≤ length self.old.buffer.now }
        ensures puts { Appends self.old self.new (numbered word.now k) }
        ensures most { self.new.written ≤ self.old.written + length word.now + 3 }
    {
        self.append_numbered(word, u32::from(k));
    }

    // Puts two words, each with a number.
    #[tactic(auto, using(crate::proofs::Appending::pieces))]
    pub fn append_numbers(&mut self, first: &[u8], k: u8, second: &[u8], j: u8)
        requires { self.old.written + length first.now + length second.now + 6 ≤ length self.old.buffer.now }
        ensures puts { Appends self.old self.new (numbered first.now k ++ numbered second.now j) }
        ensures most { self.new.written ≤ self.old.written + length first.now + length second.now + 6 }
    {
        self.append_number(first, k);
        self.append_number(second, j);
    }

    // Puts a word and a number of at most four digits. Beside `append_number`, since each type of number has its own room.
    #[tactic(auto, using(crate::proofs::Appending::numbered_length, crate::proofs::Decimal::decimal_long))]
    pub fn append_count(&mut self, word: &[u8], k: u32)
        requires { self.old.written + length word.now + 4 ≤ length self.old.buffer.now }
        ensures puts { Appends self.old self.new (numbered word.now k) }
        ensures most { self.new.written ≤ self.old.written + length word.now + 4 }
    {
        self.append_numbered(word, k);
    }
}

// The ASCII code of a number's last digit. A digit fits in a byte; `u8::try_from` would ask for an answer where it does not.
#[tactic(auto, unfolding(crate::specs::Text::last_digit))]
fn last_digit(k: u32) -> u8
    ensures { result ≡ last_digit k }
{
    b'0' + (k % 10) as u8
}

// How many digits a number has.
#[tactic(auto, unfolding(crate::specs::Text::decimal))]
fn digit_count(k: u32) -> usize
    ensures { (result ≡ length (decimal k)) × (1 ≤ result) × (result ≤ 4) }
{
    match k {
        0..=9 => 1,
        10..=99 => 2,
        100..=999 => 3,
        _ => 4,
    }
}
