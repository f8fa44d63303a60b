// The layout of a system's bytes and what is refused of them.
ghost use Rattle.std.specs.Prelude.{◌≡◌};
ghost use Rattle.refusal.specs.Refusal.{number_of};
ghost use Rattle.system.specs.System.{q_of, width as width_of, system_length, is_size, are_sizes, has_sizes, system_refusal, system_against};

use field::{all_below, is_field};
use refusal::{Refusal, require};
use slices::byte_at;

// The bytes of one polynomial in n unknowns.
#[tactic(auto, using(crate::proofs::SystemLayout::square_fits), unfolding(crate::specs::System::width))]
pub fn width(n: u8) -> usize
    ensures { result ≡ width_of n }
{
    let n = usize::from(n);
    n * (n + 1) / 2 + n
}

// The bytes of a system of m polynomials in n unknowns.
#[tactic(auto, using(crate::proofs::SystemLayout::polynomials_fit), unfolding(crate::specs::System::system_length))]
pub fn system_length(n: u8, m: u8) -> usize
    ensures { result ≡ system_length n m }
{
    3 + usize::from(m) * width(n)
}

// Whether k is a number of unknowns or of polynomials.
#[tactic(auto, unfolding(crate::specs::System::is_size))]
fn is_size(k: u8) -> bool
    ensures { result ≡ is_size k }
{
    (1..=96).contains(&k)
}

// Whether q, n and m are among their values. They stay three, since headers, books, sessions and definitions have them as fields.
#[tactic(auto, unfolding(crate::specs::System::are_sizes))]
pub fn are_sizes(q: u8, n: u8, m: u8) -> bool
    ensures { result ≡ are_sizes q n m }
{
    is_field(q) && is_size(n) && is_size(m)
}

// Refuses a system's bytes, but those that are well-formed.
#[tactic(auto, using(refusal::proofs::Answers::chain, crate::proofs::SystemLayout::too_short, crate::proofs::SystemLayout::of_parts))]
pub fn check(system: &[u8]) -> Result<(), Refusal>
    ensures { number_of result ≡ system_refusal system.now }
{
    let &[q, n, m, ref coefficients @ ..] = system else {
        return Err(Refusal::Length);
    };
    require(are_sizes(q, n, m), Refusal::Value)?;
    require(system.len() == system_length(n, m), Refusal::Length)?;
    require(all_below(q, coefficients), Refusal::Element)
}

// Whether any bytes have this q, n and m.
#[tactic(auto, unfolding(crate::specs::System::has_sizes))]
pub fn has_sizes(system: &[u8], q: u8, n: u8, m: u8) -> bool
    ensures { result ≡ has_sizes system.now q n m }
{
    byte_at(system, 0) == q && byte_at(system, 1) == n && byte_at(system, 2) == m
}

// Refuses a system that is lent to a session of this q, n and m.
#[tactic(auto, using(refusal::proofs::Answers::chain), unfolding(crate::specs::System::system_against))]
pub fn check_against(system: &[u8], q: u8, n: u8, m: u8) -> Result<(), Refusal>
    ensures { number_of result ≡ system_against system.now q n m }
{
    check(system)?;
    require(has_sizes(system, q, n, m), Refusal::Mismatch)
}
