// Commitments: the string that is hashed, held in 322 bytes with its length, and its digest.
//
// Nothing here refuses: a vector contributes as many of its 96 bytes as its length says.
#![tactic(auto)]

ghost use Rattle.std.specs.Prelude.{◌≡◌, ◌+◌, ◌*◌, ◌≤◌, [], ◌++◌, length, take, drop};
ghost use Rattle.sha256.specs.Sha256.{sha256};
ghost use Rattle.commitment.specs.Commitment.{prefix, hashed_string, vectors_at, prefix_most, longest};
ghost use Rattle.commitment.specs.Texts.{content, Room, TextOf, Appended};

use field::clamped;
use scheme::Scheme;

// What stands in a hashed string before ρ, besides the number of the commitment.
#[derive(Clone, Copy)]
pub struct Domain {
    pub scheme: Scheme,
}

// A hashed string, zero beyond its length: bytes with a length beside, since there is no heap.
#[derive(Clone, Copy)]
pub struct Text {
    pub bytes: [u8; 322],
    pub len: usize,
}

// The empty string.
pub fn empty() -> Text
    ensures { TextOf [] longest result }
{
    Text {
        bytes: [0; 322],
        len: 0,
    }
}

// How many bytes stand before ρ.
#[tactic(auto, unfolding(crate::specs::Commitment::prefix))]
fn prefix_length(d: Domain) -> usize
    ensures { (result ≡ length (prefix d 0)) × (result ≤ prefix_most) }
{
    2
}

// Where the vectors stand in a string: behind the prefix and ρ.
#[tactic(auto, unfolding(crate::specs::Commitment::vectors_at))]
pub fn vectors_at(d: Domain) -> usize
    ensures { (result ≡ vectors_at d) × (result ≤ longest) }
{
    prefix_length(d) + 32
}

// The bytes with s in the place of those from `at` on.
#[tactic(auto, unfolding(slices::specs::Slices::placed))]
fn put(bytes: [u8; 322], at: usize, s: &[u8]) -> [u8; 322]
    requires { at + length s.now ≤ longest }
    ensures { result ≡ take at bytes ++ (s.now ++ drop (at + length s.now) bytes) }
{
    let mut out = bytes;
    slices::put(&mut out, at, s);
    out
}

// The bytes before the vectors.
fn start(d: Domain, k: u8, rho: [u8; 32]) -> Text
    ensures { TextOf (prefix d k ++ rho) (3 * 96) result }
{
    let first = u8::from(d.scheme);
    let mut bytes = [0; 322];
    bytes[0] = first;
    bytes[1] = k;
    Text {
        bytes: put(bytes, prefix_length(d), &rho),
        len: vectors_at(d),
    }
}

// The string with n elements of v behind it.
fn append(t: Text, v: [u8; 96], n: u8) -> Text
    requires { Room (length (take n v)) t }
    ensures { Appended t (take n v) result }
{
    let count = clamped(usize::from(n));
    Text {
        bytes: put(t.bytes, t.len, &v[..count]),
        len: t.len + count,
    }
}

// The string of commitment k with two vectors: ρ, then na elements of a and nb of b.
pub fn string_two(d: Domain, k: u8, rho: [u8; 32], a: [u8; 96], na: u8, b: [u8; 96], nb: u8) -> Text
    ensures { TextOf (hashed_string d k rho (take na a ++ take nb b)) 96 result }
{
    append(append(start(d, k, rho), a, na), b, nb)
}

// The same with three: nc elements of c behind them.
pub fn string_three(
    d: Domain,
    k: u8,
    rho: [u8; 32],
    a: [u8; 96],
    na: u8,
    b: [u8; 96],
    nb: u8,
    c: [u8; 96],
    nc: u8,
) -> Text
    ensures { TextOf (hashed_string d k rho (take na a ++ (take nb b ++ take nc c))) 0 result }
{
    append(string_two(d, k, rho, a, na, b, nb), c, nc)
}

// The digest of a string: Com of what it is made of.
pub fn digest(t: Text) -> [u8; 32]
    requires { Room 0 t }
    ensures { result ≡ sha256 (content t) }
{
    sha256::hash(&t.bytes[..t.len])
}
