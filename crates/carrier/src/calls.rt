// The calls of an open session.
ghost use Rattle.std.specs.Prelude.{◌≡◌, IfOk};
ghost use Rattle.refusal.specs.Refusal.{number_of, kept};
ghost use Rattle.carrier_state.specs.Carrier.{commitments_refusal, with_commitments, alpha_refusal, with_alpha, middle_refusal, with_middle};
ghost use Rattle.carrier_state.specs.Carrier.{challenge_refusal, with_challenge, reply_refusal, accepts_reply, judged_carrier};

use carrier_state::{
    Carrier, CarrierPhase, carrier_domain, carrier_with, check_alpha, check_challenge,
    check_commitments, check_middle, check_reply, closed_carrier, held_commitments, held_turn,
    no_turn,
};
use exchange::judge;
use session_state::{Answered, Verdict, next_count};

// Takes the commitments of a round.
#[tactic(auto, using(refusal::proofs::Answers::chain))]
pub fn take_commitments(c: Carrier, commitments: &[u8]) -> Answered<Carrier, ()>
    ensures answer { number_of result.answer ≡ commitments_refusal c commitments.now }
    ensures session { result.session ≡ kept (number_of result.answer) c (with_commitments c commitments.now) }
{
    match check_commitments(c, commitments) {
        Ok(()) => Answered::done((), with_commitments(c, commitments)),
        Err(refusal) => Answered::refused(refusal, c),
    }
}

#[tactic(auto, unfolding(carrier_state::specs::Carrier::with_commitments, carrier_state::specs::Carrier::behind_commitments))]
fn with_commitments(c: Carrier, commitments: &[u8]) -> Carrier
    ensures { result ≡ with_commitments c commitments.now }
{
    let next = if c.scheme.has_alpha() {
        CarrierPhase::SetAlpha
    } else {
        CarrierPhase::SetChallenge
    };
    let held = held_commitments(commitments);
    carrier_with(c, next, c.accepted, held, no_turn(), 0)
}

// Sets α, in scheme 5.
#[tactic(auto, using(refusal::proofs::Answers::chain), unfolding(carrier_state::specs::Carrier::with_alpha))]
pub fn set_alpha(c: Carrier, alpha: u8) -> Answered<Carrier, ()>
    ensures answer { number_of result.answer ≡ alpha_refusal c alpha }
    ensures session { result.session ≡ kept (number_of result.answer) c (with_alpha c alpha) }
{
    match check_alpha(c, alpha) {
        Ok(()) => Answered::done(
            (),
            carrier_with(
                c,
                CarrierPhase::TakeMiddle,
                c.accepted,
                c.commitments,
                held_turn(alpha, &[]),
                0,
            ),
        ),
        Err(refusal) => Answered::refused(refusal, c),
    }
}

// Takes t1 and e1, one behind the other, in scheme 5.
#[tactic(auto, using(refusal::proofs::Answers::chain), unfolding(carrier_state::specs::Carrier::with_middle))]
pub fn take_middle(c: Carrier, middle: &[u8]) -> Answered<Carrier, ()>
    ensures answer { number_of result.answer ≡ middle_refusal c middle.now }
    ensures session { result.session ≡ kept (number_of result.answer) c (with_middle c middle.now) }
{
    match check_middle(c, middle) {
        Ok(()) => Answered::done(
            (),
            carrier_with(
                c,
                CarrierPhase::SetChallenge,
                c.accepted,
                c.commitments,
                held_turn(c.turn[0], middle),
                0,
            ),
        ),
        Err(refusal) => Answered::refused(refusal, c),
    }
}

// Sets the challenge.
#[tactic(auto, using(refusal::proofs::Answers::chain), unfolding(carrier_state::specs::Carrier::with_challenge))]
pub fn set_challenge(c: Carrier, challenge: u8) -> Answered<Carrier, ()>
    ensures answer { number_of result.answer ≡ challenge_refusal c challenge }
    ensures session { result.session ≡ kept (number_of result.answer) c (with_challenge c challenge) }
{
    match check_challenge(c, challenge) {
        Ok(()) => Answered::done(
            (),
            carrier_with(
                c,
                CarrierPhase::TakeReply,
                c.accepted,
                c.commitments,
                c.turn,
                challenge,
            ),
        ),
        Err(refusal) => Answered::refused(refusal, c),
    }
}

// The session after a round was judged: in its next round, or closed.
fn judged_carrier(c: Carrier, accepted: bool) -> Carrier
    ensures { result ≡ judged_carrier c accepted }
{
    if !accepted {
        return closed_carrier(Verdict::Rejected, c.accepted);
    }
    let next = next_count(c.accepted);
    if next < c.rounds {
        let none = held_commitments(&[]);
        carrier_with(c, CarrierPhase::TakeCommitments, next, none, no_turn(), 0)
    } else {
        closed_carrier(Verdict::Accepted, next)
    }
}

// Takes the reply of a round, and answers whether the round is accepted.
#[tactic(auto, using(refusal::proofs::Answers::chain), unfolding(carrier_state::specs::Carrier::accepts_reply))]
pub fn take_reply<'a>(c: Carrier, system: &'a [u8], reply: &'a [u8]) -> Answered<Carrier, bool>
    ensures answer { number_of result.answer ≡ reply_refusal c system.now reply.now }
    ensures accepted { IfOk result.answer (λ accepted. accepted ≡ accepts_reply c system.now reply.now) }
    ensures session { result.session ≡ kept (number_of result.answer) c (judged_carrier c (accepts_reply c system.now reply.now)) }
{
    match check_reply(c, system, reply) {
        Ok(system) => {
            // By locals: with the fields where they stand a refused call takes 23 ns for 8.
            let (v, commitments, turn) = (c.v, c.commitments, c.turn);
            let domain = carrier_domain(c);
            let accepted = judge(&system, domain, v, &commitments, &turn, c.challenge, reply);
            Answered::done(accepted, judged_carrier(c, accepted))
        }
        Err(refusal) => Answered::refused(refusal, c),
    }
}
