// The refusals of the carrier's calls, in document 01's order: 11, 10; the system's, 7; 1, 2, 3, 4. A call that is lent a system has
// it back as one that was checked.
ghost use Rattle.std.specs.Prelude.{◌≡◌, IfOk};
ghost use Rattle.refusal.specs.Refusal.{number_of};
ghost use Rattle.carrier_state.specs.Carrier.{open_refusal, commitments_refusal, alpha_refusal, middle_refusal, challenge_refusal, reply_refusal};

use crate::session::{Carrier, CarrierPhase};
use field::all_below;
use refusal::{Refusal, require};
use scheme::{Scheme, is_rounds};
use session_state::require_due;
use slices::part;
use system::System;

// What `open` refuses.
#[tactic(auto, using(refusal::proofs::Answers::chain), unfolding(crate::specs::Carrier::open_refusal))]
pub fn check_open<'a>(
    system: &'a [u8],
    scheme: u8,
    rounds: u8,
    v: &'a [u8],
) -> Result<System<'a>, Refusal>
    ensures refusal { number_of result ≡ open_refusal system.now scheme rounds v.now }
    ensures system { IfOk result (λ good. good.bytes.now ≡ system.now) }
{
    let system = System::new(system)?;
    Scheme::try_from(scheme)?;
    require(is_rounds(rounds), Refusal::Value)?;
    require(v.len() == usize::from(system.m()), Refusal::Length)?;
    require(all_below(system.q(), v), Refusal::Element)?;
    Ok(system)
}

// What `take_commitments` refuses.
#[tactic(auto, using(refusal::proofs::Answers::chain), unfolding(crate::specs::Carrier::commitments_refusal, crate::specs::Carrier::phase_number))]
pub fn check_commitments(c: Carrier, commitments: &[u8]) -> Result<(), Refusal>
    ensures { number_of result ≡ commitments_refusal c commitments.now }
{
    require_due(c.phase, CarrierPhase::TakeCommitments)?;
    require(
        commitments.len() == c.scheme.commitments_length(),
        Refusal::Length,
    )
}

// What `set_alpha` refuses.
#[tactic(auto, using(refusal::proofs::Answers::chain), unfolding(crate::specs::Carrier::alpha_refusal, crate::specs::Carrier::phase_number))]
pub fn check_alpha(c: Carrier, alpha: u8) -> Result<(), Refusal>
    ensures { number_of result ≡ alpha_refusal c alpha }
{
    require_due(c.phase, CarrierPhase::SetAlpha)?;
    require(alpha < c.q, Refusal::Element)
}

// What `take_middle` refuses.
#[tactic(auto, using(refusal::proofs::Answers::chain), unfolding(crate::specs::Carrier::middle_refusal, crate::specs::Carrier::phase_number))]
pub fn check_middle(c: Carrier, middle: &[u8]) -> Result<(), Refusal>
    ensures { number_of result ≡ middle_refusal c middle.now }
{
    require_due(c.phase, CarrierPhase::TakeMiddle)?;
    require(
        middle.len() == usize::from(c.n) + usize::from(c.m),
        Refusal::Length,
    )?;
    require(all_below(c.q, middle), Refusal::Element)
}

// What `set_challenge` refuses.
#[tactic(auto, using(refusal::proofs::Answers::chain), unfolding(crate::specs::Carrier::challenge_refusal, crate::specs::Carrier::phase_number))]
pub fn check_challenge(c: Carrier, challenge: u8) -> Result<(), Refusal>
    ensures { number_of result ≡ challenge_refusal c challenge }
{
    require_due(c.phase, CarrierPhase::SetChallenge)?;
    require(challenge < c.scheme.challenges(), Refusal::Challenge)
}

// What `take_reply` refuses.
#[tactic(auto, using(refusal::proofs::Answers::chain), unfolding(crate::specs::Carrier::reply_refusal, crate::specs::Carrier::phase_number))]
pub fn check_reply<'a>(c: Carrier, system: &'a [u8], reply: &'a [u8]) -> Result<System<'a>, Refusal>
    ensures refusal { number_of result ≡ reply_refusal c system.now reply.now }
    ensures system { IfOk result (λ good. good.bytes.now ≡ system.now) }
{
    require_due(c.phase, CarrierPhase::TakeReply)?;
    let system = System::of_sizes(system, c.q, c.n, c.m)?;
    require(
        reply.len() == c.scheme.reply_length(c.n, c.m),
        Refusal::Length,
    )?;
    let vectors = part(reply, 0, c.scheme.vectors_length(c.n, c.m));
    require(all_below(c.q, vectors), Refusal::Element)?;
    Ok(system)
}
