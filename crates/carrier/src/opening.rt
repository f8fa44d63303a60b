// The opening of a carrier's session.
ghost use Rattle.std.specs.Prelude.{◌≡◌};
ghost use Rattle.refusal.specs.Refusal.{number_of, kept};
ghost use Rattle.session_state.specs.declared.Verdict.TheVariants.{None as NoVerdict};
ghost use Rattle.carrier_state.specs.Carrier.{open_refusal, closed_carrier, opened_carrier};

use carrier_state::{Carrier, CarrierPhase, check_open, closed_carrier, held_commitments, no_turn};
use field::from_slice;
use scheme::scheme_of;
use session_state::{Answered, Verdict};
use system::System;

// A session in its first round.
fn opened_carrier(system: &System, scheme: u8, rounds: u8, v: &[u8]) -> Carrier
    ensures { result ≡ opened_carrier system.now.bytes.now scheme rounds v.now }
{
    let v = from_slice(v);
    let (commitments, turn) = (held_commitments(&[]), no_turn());
    Carrier {
        phase: CarrierPhase::TakeCommitments,
        scheme: scheme_of(scheme),
        q: system.q(),
        n: system.n(),
        m: system.m(),
        rounds,
        accepted: 0,
        v,
        commitments,
        turn,
        challenge: 0,
    }
}

// Opens a session of so many rounds for the key v.
#[tactic(auto, using(refusal::proofs::Answers::chain))]
pub fn open<'a>(system: &'a [u8], scheme: u8, rounds: u8, v: &'a [u8]) -> Answered<Carrier, ()>
    ensures answer { number_of result.answer ≡ open_refusal system.now scheme rounds v.now }
    ensures session { result.session ≡ kept (number_of result.answer) (closed_carrier NoVerdict 0) (opened_carrier system.now scheme rounds v.now) }
{
    match check_open(system, scheme, rounds, v) {
        Ok(system) => Answered::done((), opened_carrier(&system, scheme, rounds, v)),
        Err(refusal) => Answered::refused(refusal, closed_carrier(Verdict::None, 0)),
    }
}
