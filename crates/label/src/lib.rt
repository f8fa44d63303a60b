// Labels: the ICCID of a card as the card stores it, ten bytes of two digits each, the first in the low half.
//
// Every function takes any bytes.
#![tactic(auto)]

ghost use Rattle.std.specs.Prelude.{◌≡◌, ◌+◌, ◌*◌, ◌/◌, ◌%◌, ◌<◌};
ghost use Rattle.label.specs.Tests.{is_label, is_below, are_digits, are_last};

// Whether both halves of a byte are digits.
#[tactic(auto, unfolding(crate::specs::Tests::are_digits))]
fn are_digits(byte: u8) -> bool
    ensures { result ≡ are_digits byte }
{
    byte % 16 <= 9 && byte / 16 <= 9
}

// The same of the last byte, whose high half may be F too.
#[tactic(auto, unfolding(crate::specs::Tests::are_last))]
fn are_last(byte: u8) -> bool
    ensures { result ≡ are_last byte }
{
    if byte / 16 == 0xF {
        byte % 16 <= 9
    } else {
        are_digits(byte)
    }
}

// Whether the bytes are a label: ten, with no wrong half. A fold looks at nine at once; `all` leaves early, and takes 18 ns in place of 6.
#[tactic(auto, unfolding(crate::specs::Tests::is_label))]
pub fn is_label(bytes: &[u8]) -> bool
    ensures { result ≡ is_label bytes.now }
{
    if bytes.len() != 10 {
        return false;
    }
    let first = &bytes[..9];
    let good = first
        .iter()
        .fold(true, |good, &byte| good & are_digits(byte));
    good & are_last(bytes[9])
}

// A byte as a number of two digits, the first of them the higher.
fn in_order(byte: u8) -> u8
    ensures { (result ≡ 16 * (byte % 16) + byte / 16) × (byte / 16 < 16) }
{
    16 * (byte % 16) + byte / 16
}

// Whether label a stands before b: by the first digit in which they differ. Not where one of them has not ten bytes.
#[tactic(auto, unfolding(crate::specs::Tests::is_below))]
pub fn is_below<'a>(a: &'a [u8], b: &'a [u8]) -> bool
    ensures { result ≡ is_below a.now b.now }
{
    if a.len() != 10 || b.len() != 10 {
        return false;
    }
    for (&x, &y) in a.iter().zip(b) {
        if x != y {
            return in_order(x) < in_order(y);
        }
    }
    false
}
