// Vectors by value, zero beyond their n elements.
ghost use Rattle.std.specs.Prelude.{◌≡◌, min, length};
ghost use Rattle.field.specs.Ops.{ops};
ghost use Rattle.slices.specs.Slices.{◌!◌};
ghost use Rattle.field.specs.Vector.{vector, slot_v, add_v, sub_v, mul_v};
ghost use Rattle.field.specs.Combined.{Combined};

use crate::scalar::{add, mul, sub};
use slices::part;

// How many of n elements 96 bytes hold.
pub fn clamped(n: usize) -> usize
    ensures { result ≡ min n 96 }
{
    n.min(96)
}

// The vector of the bytes of s, of which 96 at most are taken.
#[tactic(auto, using(crate::proofs::Vectors::copied_vector))]
pub fn from_slice(s: &[u8]) -> [u8; 96]
    ensures { result ≡ vector (length s.now) (λ i. s.now ! i) }
{
    let mut z = [0; 96];
    let end = clamped(s.len());
    z[..end].copy_from_slice(&s[..end]);
    z
}

// The vector of n elements that stands in s from `at` on.
#[tactic(auto, using(crate::proofs::Vectors::vector_part), unfolding(crate::specs::Vector::slot_v))]
pub fn slot(s: &[u8], at: usize, n: u8) -> [u8; 96]
    ensures { result ≡ slot_v n «at» s.now }
{
    from_slice(part(s, at, usize::from(n)))
}

// The vector of what f gives of the two elements at each of its n places.
#[tactic(auto, using(crate::proofs::Vectors::combined_step, crate::proofs::Vectors::combined_end))]
fn each<F: Fn(u8, u8) -> u8>(n: u8, x: [u8; 96], y: [u8; 96], f: F) -> [u8; 96]
    requires { F.IsAlwaysCallable f }
    ensures { Combined (F.post f) n x y result }
{
    let mut z = [0; 96];
    for i in 0..clamped(usize::from(n)) {
        z[i] = f(x[i], y[i]);
    }
    z
}

pub fn add_vectors(q: u8, n: u8, x: [u8; 96], y: [u8; 96]) -> [u8; 96]
    ensures { result ≡ add_v (ops q) n x y }
{
    each(n, x, y, |a, b| add(q, a, b))
}

pub fn sub_vectors(q: u8, n: u8, x: [u8; 96], y: [u8; 96]) -> [u8; 96]
    ensures { result ≡ sub_v (ops q) n x y }
{
    each(n, x, y, |a, b| sub(q, a, b))
}

// The multiple of x by the element a.
pub fn mul_vector(q: u8, n: u8, a: u8, x: [u8; 96]) -> [u8; 96]
    ensures { result ≡ mul_v (ops q) n a x }
{
    each(n, [a; 96], x, |a, b| mul(q, a, b))
}
