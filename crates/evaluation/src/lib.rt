// The entries for F and its polar form G.
//
// `evaluate` and `polar` take any bytes. They refuse in document 01's order, and then the output is what it was: the system's own
// refusal, then an argument or an output of the wrong length, then a byte that is no element.
#![tactic(auto)]

ghost use Rattle.std.specs.Prelude.{◌≡◌, length, take};
ghost use Rattle.refusal.specs.Refusal.{number_of, kept};
ghost use Rattle.system.specs.System.{m_of, F, G};
ghost use Rattle.evaluation.specs.Entry.{evaluate_refusal, polar_refusal};

use field::{all_below, from_slice};
use polynomials::{f, g};
use refusal::{Refusal, require};
use system::System;

// Writes F(x) to out. x has n bytes and out m.
#[tactic(auto, using(crate::proofs::Entries::answers), unfolding(crate::specs::Entry::evaluate_refusal))]
pub fn evaluate(system: &[u8], x: &[u8], out: &mut [u8]) -> Result<(), Refusal>
    ensures refusal { number_of result ≡ evaluate_refusal system.now x.now (length out.old) }
    ensures output { out.new ≡ kept (number_of result) out.old (take (m_of system.now) (F system.now x.now)) }
{
    let system = System::new(system)?;
    require(x.len() == usize::from(system.n()), Refusal::Length)?;
    require(out.len() == usize::from(system.m()), Refusal::Length)?;
    require(all_below(system.q(), x), Refusal::Element)?;
    let y = f(&system, from_slice(x));
    out.copy_from_slice(&y[..out.len()]);
    Ok(())
}

// Writes G(x, y) to out. x and y have n bytes and out m. One form for both calls would take a slice of arguments, no plainer.
#[tactic(auto, using(crate::proofs::Entries::answers), unfolding(crate::specs::Entry::polar_refusal))]
pub fn polar(system: &[u8], x: &[u8], y: &[u8], out: &mut [u8]) -> Result<(), Refusal>
    ensures refusal { number_of result ≡ polar_refusal system.now x.now y.now (length out.old) }
    ensures output { out.new ≡ kept (number_of result) out.old (take (m_of system.now) (G system.now x.now y.now)) }
{
    let system = System::new(system)?;
    let q = system.q();
    let n = usize::from(system.n());
    require(x.len() == n, Refusal::Length)?;
    require(y.len() == n, Refusal::Length)?;
    require(out.len() == usize::from(system.m()), Refusal::Length)?;
    require(all_below(q, x), Refusal::Element)?;
    require(all_below(q, y), Refusal::Element)?;
    let z = g(&system, from_slice(x), from_slice(y));
    out.copy_from_slice(&z[..out.len()]);
    Ok(())
}
