// The hash of one block: FIPS 180-4, 6.2.2.
ghost use Rattle.std.specs.Prelude.{◌≡◌, ◌+◌, ◌*◌, ◌<◌, ◌≤◌, length, take};
ghost use Rattle.sha256_block.specs.Bytes.{word_at};
ghost use Rattle.sha256_block.specs.Block.{words_of, next_word, T1, T2, round, added, compress};
ghost use Rattle.sha256_block.specs.State.{variables};

use crate::constants::constants;
use crate::state::State;
use crate::word::{choose, lower_sigma0, lower_sigma1, majority, upper_sigma0, upper_sigma1};

// The word that bytes 4i to 4i + 3 of a block are, the high byte first.
#[tactic(auto, unfolding(crate::specs::Bytes::word_at))]
fn word_at(block: &[u8], i: usize) -> u32
    requires { 4 * i + 3 < length block.now }
    ensures { result ≡ word_at block.now i }
{
    let at = 4 * i;
    u32::from_be_bytes([block[at], block[at + 1], block[at + 2], block[at + 3]])
}

// A message schedule whose first sixteen words are the block's, and the others not set yet.
fn load(block: &[u8]) -> [u32; 64]
    requires { length block.now ≡ 64 }
    ensures { (length result ≡ 64) × (take 16 result ≡ words_of block.now) }
{
    let mut w = [0u32; 64];
    for i in 0..16 {
        w[i] = word_at(block, i);
    }
    w
}

// Word t of the message schedule, of the words before it.
#[tactic(auto, using(crate::proofs::Operations::sum_is), unfolding(crate::specs::Block::next_word))]
fn next_word(w: &[u32; 64], t: usize) -> u32
    requires { (16 ≤ t) × (t < 64) }
    ensures { result ≡ next_word w.now t }
{
    lower_sigma1(w[t - 2])
        .wrapping_add(w[t - 7])
        .wrapping_add(lower_sigma0(w[t - 15]))
        .wrapping_add(w[t - 16])
}

// The word T1 of a round, with its constant and its word of the message schedule.
#[tactic(auto, using(crate::proofs::Operations::sum_is), unfolding(crate::specs::Block::T1))]
fn first_sum(s: State, k: u32, w: u32) -> u32
    ensures { result ≡ T1 k w (variables s) }
{
    s.h.wrapping_add(upper_sigma1(s.e))
        .wrapping_add(choose(s.e, s.f, s.g))
        .wrapping_add(k)
        .wrapping_add(w)
}

// The word T2 of a round.
#[tactic(auto, using(crate::proofs::Operations::sum_is), unfolding(crate::specs::Block::T2))]
fn second_sum(s: State) -> u32
    ensures { result ≡ T2 (variables s) }
{
    upper_sigma0(s.a).wrapping_add(majority(s.a, s.b, s.c))
}

// One round, with its constant and its word of the message schedule.
#[tactic(auto, using(crate::proofs::Operations::sum_is), unfolding(crate::specs::Block::round, crate::specs::Block::shifted))]
fn round(s: State, k: u32, w: u32) -> State
    ensures { variables result ≡ round k w (variables s) }
{
    let t1 = first_sum(s, k, w);
    let t2 = second_sum(s);
    State {
        a: t1.wrapping_add(t2),
        b: s.a,
        c: s.b,
        d: s.c,
        e: s.d.wrapping_add(t1),
        f: s.e,
        g: s.f,
        h: s.g,
    }
}

// The words of two states added, each to its like.
#[tactic(auto, using(crate::proofs::Operations::sum_is), unfolding(crate::specs::Block::added))]
fn add_states(s: State, t: State) -> State
    ensures { variables result ≡ added (variables s) (variables t) }
{
    State {
        a: s.a.wrapping_add(t.a),
        b: s.b.wrapping_add(t.b),
        c: s.c.wrapping_add(t.c),
        d: s.d.wrapping_add(t.d),
        e: s.e.wrapping_add(t.e),
        f: s.f.wrapping_add(t.f),
        g: s.g.wrapping_add(t.g),
        h: s.h.wrapping_add(t.h),
    }
}

// The hash value after a block of 64 bytes. A word of the message schedule is computed sixteen rounds before its own.
pub fn hash_block(value: State, block: &[u8]) -> State
    requires { length block.now ≡ 64 }
    ensures { variables result ≡ compress (variables value) block.now }
{
    let k = constants();
    let mut w = load(block);
    let mut s = value;
    for t in 0..64 {
        s = round(s, k[t], w[t]);
        if t < 48 {
            let next = t + 16;
            w[next] = next_word(&w, next);
        }
    }
    add_states(s, value)
}
