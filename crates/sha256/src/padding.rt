// The blocks of a padded message that are not whole blocks of the message itself: FIPS 180-4, 5.1.1.
ghost use Rattle.std.specs.Prelude.{◌≡◌, ◌+◌, ◌*◌, ◌/◌, ◌<◌, ◌≤◌, length, get_or};
ghost use Rattle.sha256_block.specs.Bytes.{byte_of};
ghost use Rattle.sha256.specs.Padding.{pad, block_count, block};

// How many blocks a message of n bytes has once it is padded.
pub fn block_count(n: usize) -> usize
    requires { n ≤ 65535 }
    ensures { result ≡ (n + 8) / 64 + 1 }
{
    (n + 8) / 64 + 1
}

// Byte j of the length in bits of a message of n bytes, as 64 bits with the high byte first. From usize to u64
// there is only a cast.
fn length_byte(n: usize, j: usize) -> u8
    requires { (n ≤ 65535) × (j < 8) }
    ensures { result ≡ byte_of 8 (8 * n) j }
{
    (8 * n as u64).to_be_bytes()[j]
}

// The byte at a place of the padded message.
fn padded_byte(message: &[u8], at: usize) -> u8
    requires { (length message.now ≤ 65535) × (at < length (pad message.now)) }
    ensures { result ≡ get_or (pad message.now) at 0 }
{
    let n = message.len();
    if at < n {
        return message[at];
    }
    if at == n {
        return 0x80;
    }
    let end = 64 * block_count(n) - 8;
    if at < end {
        return 0;
    }
    length_byte(n, at - end)
}

// Block i of the padded message.
pub fn padded_block(message: &[u8], i: usize) -> [u8; 64]
    requires { (length message.now ≤ 65535) × (i < block_count (pad message.now)) }
    ensures { result ≡ block (pad message.now) i }
{
    let at = 64 * i;
    let mut b = [0u8; 64];
    for j in 0..64 {
        b[j] = padded_byte(message, at + j);
    }
    b
}
