// A label as the ICCID that stands on the card: its digits put into a lent text, and the label of such digits.
#![tactic(auto)]

ghost use Rattle.std.specs.Prelude.{◌≡◌, unwrap_or, [], ◌++◌, ◌+◌, ◌*◌, ◌/◌, ◌%◌, ◌≤◌, ◌<◌, length};
ghost use Rattle.slices.specs.Slices.{tabulate};
ghost use Rattle.text.specs.Writer.{Appends};
ghost use Rattle.iccid.specs.Iccid.{half_digit, label_digits, half_of, character_at, byte_from, label_from};

use text::Writer;

// Puts a half's digit, nothing for F.
#[tactic(auto, using(text::proofs::Appending::pieces), unfolding(crate::specs::Iccid::half_digit))]
fn append_half(text: &mut Writer, half: u8)
    requires { (half < 16) × (text.old.written + 1 ≤ length text.old.buffer.now) }
    ensures puts { Appends text.old text.new (half_digit half) }
    ensures most { text.new.written ≤ text.old.written + 1 }
{
    if half != 0xF {
        text.append(&[b'0' + half]);
    }
}

// Puts the digits of a byte's halves, the low one first.
#[tactic(auto, using(text::proofs::Appending::pieces))]
fn append_halves(text: &mut Writer, byte: u8)
    requires { text.old.written + 2 ≤ length text.old.buffer.now }
    ensures puts { Appends text.old text.new (half_digit (byte % 16) ++ half_digit (byte / 16)) }
    ensures most { text.new.written ≤ text.old.written + 2 }
{
    append_half(text, byte % 16);
    append_half(text, byte / 16);
}

// Puts the digits of a label.
#[tactic(auto, using(text::proofs::Appending::pieces, crate::proofs::Digits::digits))]
pub fn append_label(text: &mut Writer, label: &[u8])
    requires { text.old.written + 2 * length label.now ≤ length text.old.buffer.now }
    ensures puts { Appends text.old text.new (label_digits label.now) }
    ensures most { text.new.written ≤ text.old.written + 2 * length label.now }
{
    for &byte in label {
        append_halves(text, byte);
    }
}

// The half that a character stands for.
#[tactic(auto, unfolding(crate::specs::Iccid::half_of))]
fn half_of(character: u8) -> Option<u8>
    ensures half { unwrap_or result 10 ≡ half_of character }
    ensures small { unwrap_or result 10 < 16 }
{
    match character {
        b'F' => Some(0xF),
        b'0'..=b'9' => Some(character - b'0'),
        _ => None,
    }
}

// The character at place i, `F` behind the last.
#[tactic(auto, unfolding(crate::specs::Iccid::character_at))]
fn character_at(iccid: &[u8], i: usize) -> u8
    ensures { result ≡ character_at iccid.now i }
{
    iccid.get(i).copied().unwrap_or(b'F')
}

// Byte i of the label that the characters stand for. A character that is no half counts as 10, which is wrong in every place, so
// that the label is refused.
#[tactic(auto, unfolding(crate::specs::Iccid::byte_from))]
fn byte_from(iccid: &[u8], i: usize) -> u8
    requires { i < 10 }
    ensures { result ≡ byte_from iccid.now i }
{
    let low = half_of(character_at(iccid, 2 * i)).unwrap_or(10);
    let high = half_of(character_at(iccid, 2 * i + 1)).unwrap_or(10);
    low + 16 * high
}

// The ten bytes that the characters stand for.
#[tactic(auto, using(slices::proofs::Tabulate::tabulate_of))]
pub fn bytes_from(iccid: &[u8]) -> [u8; 10]
    ensures { result ≡ tabulate 10 (byte_from iccid.now) }
{
    let mut bytes = [0; 10];
    for i in 0..10 {
        bytes[i] = byte_from(iccid, i);
    }
    bytes
}

// The label of an ICCID; none where it has not twenty characters or nineteen.
#[tactic(auto, unfolding(crate::specs::Iccid::label_from, crate::specs::Iccid::has_label))]
pub fn label_of(iccid: &[u8]) -> Option<[u8; 10]>
    ensures { unwrap_or result [] ≡ label_from iccid.now }
{
    match iccid.len() {
        19 | 20 => Some(bytes_from(iccid)),
        _ => None,
    }
}
