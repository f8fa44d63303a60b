// Bytes as hexadecimal digits, put behind what was written. Whoever calls lends the room.
#![tactic(auto)]

ghost use Rattle.std.specs.Prelude.{◌≡◌, ◌+◌, ◌*◌, ◌≤◌, ◌<◌, length};
ghost use Rattle.text.specs.Writer.{Appends};
ghost use Rattle.hex_text.specs.Hex.{hex_digit, hex_byte, hex};

use text::Writer;

// The ASCII code of a hexadecimal digit.
#[tactic(auto, unfolding(crate::specs::Hex::hex_digit))]
fn hex_digit(k: u8) -> u8
    requires { k < 16 }
    ensures { result ≡ hex_digit k }
{
    match k {
        0..=9 => b'0' + k,
        _ => b'a' + (k - 10),
    }
}

// Puts a byte's two digits.
#[tactic(auto, unfolding(crate::specs::Hex::hex_byte))]
fn append_byte(text: &mut Writer, byte: u8)
    requires { text.old.written + 2 ≤ length text.old.buffer.now }
    ensures puts { Appends text.old text.new (hex_byte byte) }
    ensures size { text.new.written ≡ text.old.written + 2 }
{
    let high = hex_digit(byte / 16);
    let low = hex_digit(byte % 16);
    text.append(&[high, low]);
}

// Puts two digits for each byte.
#[tactic(auto, using(text::proofs::Appending::pieces, crate::proofs::Digits::digits))]
pub fn append_hex(text: &mut Writer, s: &[u8])
    requires { text.old.written + 2 * length s.now ≤ length text.old.buffer.now }
    ensures puts { Appends text.old text.new (hex s.now) }
    ensures size { text.new.written ≡ text.old.written + 2 * length s.now }
{
    for &byte in s {
        append_byte(text, byte);
    }
}
