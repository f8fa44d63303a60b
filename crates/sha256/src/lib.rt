// SHA-256 (FIPS 180-4) of messages of 0 to 65,535 bytes. `digest` writes the digest to memory that is lent to it, and refuses a
// longer message or an output that is not 32 bytes long, which it leaves as it was. `hash` returns the digest by value.
#![tactic(auto)]

mod padding;

ghost use Rattle.std.specs.Prelude.{◌≡◌, ◌/◌, ◌<◌, ◌≤◌, length};
ghost use Rattle.sha256.specs.Padding.{pad, block_count};
ghost use Rattle.sha256.specs.Sha256.{hash_value, hash_words, sha256};
ghost use Rattle.sha256_block.specs.State.{variables};
ghost use Rattle.refusal.specs.Refusal.{kept, number_of};
ghost use Rattle.sha256.specs.Digest.{digest_refusal};

use crate::padding::{block_count, padded_block};
use refusal::{Refusal, require};
use sha256_block::{State, hash_block, initial_state};

// The hash value after the blocks that the message has whole.
fn whole_blocks(message: &[u8]) -> State
    ensures { variables result ≡ hash_value (pad message.now) (length message.now / 64) }
{
    let (blocks, _) = message.as_chunks::<64>();
    let mut s = initial_state();
    for block in blocks {
        s = hash_block(s, block);
    }
    s
}

// The hash value after every block of the padded message. The bound stands in four contracts: a type for it would be built by every caller.
fn last_value(message: &[u8]) -> State
    requires { length message.now ≤ 65535 }
    ensures { variables result ≡ hash_value (pad message.now) (block_count (pad message.now)) }
{
    let count = block_count(message.len());
    let mut s = whole_blocks(message);
    for i in message.len() / 64..count {
        let b = padded_block(message, i);
        s = hash_block(s, &b);
    }
    s
}

// The words of a hash value, H_0 first.
#[tactic(auto, unfolding(crate::specs::Sha256::hash_words))]
fn words(s: State) -> [u32; 8]
    ensures { result ≡ hash_words (variables s) }
{
    [s.a, s.b, s.c, s.d, s.e, s.f, s.g, s.h]
}

// The digest of a message.
pub fn hash(message: &[u8]) -> [u8; 32]
    requires { length message.now ≤ 65535 }
    ensures { result ≡ sha256 message.now }
{
    let w = words(last_value(message));
    let mut out = [0u8; 32];
    for i in 0..8 {
        let at = 4 * i;
        out[at..at + 4].copy_from_slice(&w[i].to_be_bytes());
    }
    out
}

// The bytes of a digest.
const DIGEST_LENGTH: usize = 32;

// Writes the digest of a message to out. Refused, with out as it was: a message of more than 65,535 bytes, an out that is not 32 long.
#[tactic(auto, using(refusal::proofs::Answers::chain), unfolding(crate::specs::Digest::digest_refusal))]
pub fn digest(message: &[u8], out: &mut [u8]) -> Result<(), Refusal>
    ensures { (number_of result ≡ digest_refusal (length message.now) (length out.old))
        × (out.new ≡ kept (number_of result) out.old (sha256 message.now)) }
{
    require(message.len() <= 65535, Refusal::Length)?;
    require(out.len() == DIGEST_LENGTH, Refusal::Length)?;
    let d = hash(message);
    out.copy_from_slice(&d);
    Ok(())
}
