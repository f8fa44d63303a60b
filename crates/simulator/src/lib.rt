// The simulator: the commitments of one three-pass round and the reply to a challenge, formed without the secret.
//
// It takes any bytes. It refuses in document 01's order, and then both outputs are what they were: the system's own refusal; a v,
// lent slice or output of another length; a byte of v or of the lent vectors that is no element; a challenge outside 0 to 2, or
// Ch* itself.
#![tactic(auto)]

ghost use Rattle.std.specs.Prelude.{◌≡◌, length};
ghost use Rattle.refusal.specs.Refusal.{number_of, kept};
ghost use Rattle.round.specs.Pieces.{vectors_of};
ghost use Rattle.simulator.specs.Simulator.{simulate_refusal, lent_behind, vectors_from, simulated_commitments, simulated_reply};

use commitment::Domain;
use exchange::{Lent, read_lent, write_reply_three, write_three_commitments};
use field::{all_below, from_slice, slot};
use refusal::{Refusal, require};
use round::{Vectors, commitments_three, reply_three, simulated};
use scheme::Scheme;
use slices::part;
use system::System;

// Refuses a call over a system, its outputs' lengths among its arguments.
#[tactic(auto, using(crate::proofs::NotRefused::answers), unfolding(crate::specs::Simulator::simulate_refusal))]
fn check_call(
    system: &System,
    v: &[u8],
    unanswered: u8,
    challenge: u8,
    lent: &[u8],
    commitments_len: usize,
    reply_len: usize,
) -> Result<(), Refusal>
    ensures { number_of result ≡ simulate_refusal system.now.bytes.now v.now unanswered challenge lent.now commitments_len reply_len }
{
    let q = system.q();
    let n = system.n();
    let m = system.m();
    let drawn = usize::from(n) + Scheme::ThreePass.drawn_length(n, m);
    let rhos = Scheme::ThreePass.commitments_length();
    require(v.len() == usize::from(m), Refusal::Length)?;
    require(lent.len() == drawn + rhos, Refusal::Length)?;
    require(commitments_len == rhos, Refusal::Length)?;
    require(
        reply_len == Scheme::ThreePass.reply_length(n, m),
        Refusal::Length,
    )?;
    require(all_below(q, v), Refusal::Element)?;
    require(all_below(q, &lent[..drawn]), Refusal::Element)?;
    require(unanswered <= 2, Refusal::Challenge)?;
    require(challenge <= 2, Refusal::Challenge)?;
    require(unanswered != challenge, Refusal::Challenge)
}

// What is lent behind s', as to a card.
#[tactic(auto, using(slices::proofs::Parts::part_all), unfolding(crate::specs::Simulator::lent_behind))]
fn lent_behind(lent: &[u8], n: u8, m: u8) -> Lent
    ensures { result ≡ lent_behind n m lent.now }
{
    read_lent(part(lent, usize::from(n), lent.len()), n, m)
}

// The simulator's vectors, from s' and what is lent behind it.
#[tactic(auto, unfolding(crate::specs::Simulator::vectors_from))]
fn vectors_from(system: &System, unanswered: u8, v: &[u8], lent: &[u8], l: Lent) -> Vectors
    ensures { vectors_of result ≡ vectors_from system.now.bytes.now unanswered v.now lent.now l }
{
    let s = slot(lent, 0, system.n());
    simulated(system, unanswered, from_slice(v), s, l.r0, l.t0, l.e0)
}

// Writes the three commitments and the reply to `challenge`; `unanswered` is Ch*, the challenge that is not
// answered.
#[tactic(auto, using(crate::proofs::NotRefused::answers, refusal::proofs::Answers::none_kept), unfolding(crate::specs::Simulator::simulate_refusal, crate::specs::Simulator::simulated_commitments, crate::specs::Simulator::simulated_reply, crate::specs::Simulator::lent_vectors, crate::specs::Simulator::simulator_domain))]
pub fn simulate(
    system: &[u8],
    v: &[u8],
    unanswered: u8,
    challenge: u8,
    lent: &[u8],
    commitments: &mut [u8],
    reply: &mut [u8],
) -> Result<(), Refusal>
    ensures refusal { number_of result ≡ simulate_refusal system.now v.now unanswered challenge lent.now
        (length commitments.old) (length reply.old) }
    ensures commitments { commitments.new ≡ kept (number_of result) commitments.old
        (simulated_commitments system.now v.now unanswered lent.now) }
    ensures reply { reply.new ≡ kept (number_of result) reply.old
        (simulated_reply system.now v.now unanswered challenge lent.now) }
{
    let system = System::new(system)?;
    check_call(
        &system,
        v,
        unanswered,
        challenge,
        lent,
        commitments.len(),
        reply.len(),
    )?;
    let n = system.n();
    let m = system.m();
    let l = lent_behind(lent, n, m);
    let w = vectors_from(&system, unanswered, v, lent, l);
    let d = Domain {
        scheme: Scheme::ThreePass,
    };
    write_three_commitments(commitments_three(d, n, m, w, l.rhos), commitments);
    write_reply_three(reply_three(w, l.rhos, challenge), n, m, reply);
    Ok(())
}
