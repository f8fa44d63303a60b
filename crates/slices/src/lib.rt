// Slices of bytes by place: reading, total and 0 beyond the end; comparing; putting pieces into a lent slice; and numbers of
// four bytes.
#![tactic(auto)]

ghost use Rattle.std.specs.Prelude.{◌≡◌, ◌+◌, ◌≤◌, ◌<◌, ◌++◌, length, take, drop};
ghost use Rattle.slices.specs.Slices.{◌!◌, tabulate, same, placed, zeros as zeros_of, word as word_of, number as number_of};

// N zeros. Their count, beside what is held, is what lending an array as a slice needs.
pub fn zeros<const N: usize>() -> [u8; N]
    ensures { (result ≡ zeros_of N) × (N ≡ length result) }
{
    [0; N]
}

// The byte at place i, and 0 beyond the end.
pub fn byte_at(s: &[u8], i: usize) -> u8
    ensures { result ≡ s.now ! i }
{
    s.get(i).copied().unwrap_or(0)
}

// The N bytes from `at` on, zero beyond the end.
pub fn bytes_at<const N: usize>(s: &[u8], at: usize) -> [u8; N]
    ensures { result ≡ tabulate N (λ i. s.now ! (at + i)) }
{
    let mut out = [0; N];
    let found = part(s, at, N);
    out[..found.len()].copy_from_slice(found);
    out
}

// Whether two slices hold the same bytes: `==` under a name, whose promise a proof can cite where `==` would be opened.
#[tactic(auto, using(crate::proofs::Sameness::pointwise_same))]
pub fn equal(a: &[u8], b: &[u8]) -> bool
    ensures { result ≡ same a.now b.now }
{
    a == b
}

// At most `count` bytes from `at` on: what there is of them.
pub fn part(s: &[u8], at: usize, count: usize) -> &[u8]
    ensures { result.now ≡ take count (drop at s.now) }
{
    let start = at.min(s.len());
    let length = count.min(s.len() - start);
    &s[start..start + length]
}

// Puts s in the place of the bytes from `at` on.
#[tactic(auto, using(crate::proofs::Parts::put_whole), unfolding(crate::specs::Slices::placed))]
pub fn put(out: &mut [u8], at: usize, s: &[u8])
    requires { at + length s.now ≤ length out.old }
    ensures { out.new ≡ placed out.old «at» s.now }
{
    let end = at + s.len();
    out[at..end].copy_from_slice(s);
}

// Puts a and then b in the place of all bytes.
pub fn put_both<'a>(out: &mut [u8], a: &'a [u8], b: &'a [u8])
    requires { length out.old ≡ length a.now + length b.now }
    ensures { out.new ≡ a.now ++ b.now }
{
    put(out, 0, a);
    put(out, a.len(), b);
}

// A number as four bytes, the lowest first. The remainder fits 32 bits: `try_from` would have a branch that no run takes.
pub fn word(k: usize) -> [u8; 4]
    ensures { (result ≡ word_of k) × (length result ≡ 4) }
{
    ((k % 0x1_0000_0000) as u32).to_le_bytes()
}

// The number that the first four bytes are, 0 for those beyond the end.
pub fn number(s: &[u8]) -> u32
    ensures { result ≡ number_of s.now }
{
    u32::from_le_bytes(bytes_at(s, 0))
}
