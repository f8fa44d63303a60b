// What the benchmarks in bench/ call to time refused calls, under C names: a call on a closed session that is put in a
// phase. Nothing is opened, so that no time is spent on anything else.
//
// Nothing here is part of the product. These are not among `bench_entries`, whose archive would then have two callers of each
// call, and its calls of a round would no longer be one function, whose stack use is measured.
#![tactic(auto)]

ghost use Rattle.std.specs.Prelude.{◌≡◌, length};
ghost use Rattle.refusal.specs.Refusal.{kept};
ghost use Rattle.card_state.specs.Card.{commit_refusal, sent_commitments, alpha_refusal, sent_middle};
ghost use Rattle.carrier_state.specs.Carrier.{reply_refusal};
ghost use Rattle.bench_refused.specs.Refused.{card_phase, card_in, carrier_phase, carrier_in};

use card_state::{Card, CardPhase, card_with, closed_card, held_lent};
use carrier_state::{Carrier, CarrierPhase, carrier_with, closed_carrier};
use refusal::number_of;
use session_state::Verdict;

// A card's phase by its number.
#[tactic(auto, unfolding(crate::specs::Refused::card_phase))]
fn card_phase(number: u8) -> CardPhase
    ensures { result ≡ card_phase number }
{
    match number {
        0 => CardPhase::Closed(Verdict::None),
        1 => CardPhase::Commit,
        2 => CardPhase::AnswerAlpha,
        _ => CardPhase::Reply,
    }
}

fn card_in(phase: u8) -> Card
    ensures { result ≡ card_in phase }
{
    let closed = closed_card();
    card_with(
        closed,
        card_phase(phase),
        closed.round,
        held_lent(closed),
        closed.e1,
    )
}

// A carrier's phase by its number.
#[tactic(auto, unfolding(crate::specs::Refused::carrier_phase))]
fn carrier_phase(number: u8) -> CarrierPhase
    ensures { result ≡ carrier_phase number }
{
    match number {
        0 => CarrierPhase::Closed(Verdict::None),
        1 => CarrierPhase::TakeCommitments,
        2 => CarrierPhase::SetAlpha,
        3 => CarrierPhase::TakeMiddle,
        4 => CarrierPhase::SetChallenge,
        _ => CarrierPhase::TakeReply,
    }
}

fn carrier_in(phase: u8) -> Carrier
    ensures { result ≡ carrier_in phase }
{
    let closed = closed_carrier(Verdict::None, 0);
    carrier_with(
        closed,
        carrier_phase(phase),
        closed.accepted,
        closed.commitments,
        closed.turn,
        closed.challenge,
    )
}

// The card's commit: answers its refusal.
#[unsafe(no_mangle)]
pub extern "C" fn bench_commit<'a>(
    phase: u8,
    system: &'a [u8],
    lent: &'a [u8],
    out: &mut [u8],
) -> u8
    ensures { (result ≡ commit_refusal (card_in phase) system.now lent.now (length out.old))
        × (out.new ≡ kept result out.old (sent_commitments (card_in phase) system.now lent.now)) }
{
    number_of(card::commit(card_in(phase), system, lent, out).answer)
}

// The card's answer to α.
#[unsafe(no_mangle)]
pub extern "C" fn bench_answer_alpha(phase: u8, system: &[u8], alpha: u8, out: &mut [u8]) -> u8
    ensures { (result ≡ alpha_refusal (card_in phase) system.now alpha (length out.old))
        × (out.new ≡ kept result out.old (sent_middle (card_in phase) system.now alpha)) }
{
    number_of(card::answer_alpha(card_in(phase), system, alpha, out).answer)
}

// The carrier's taking of a reply.
#[unsafe(no_mangle)]
pub extern "C" fn bench_take_reply<'a>(phase: u8, system: &'a [u8], reply: &'a [u8]) -> u8
    ensures { result ≡ reply_refusal (carrier_in phase) system.now reply.now }
{
    number_of(carrier::take_reply(carrier_in(phase), system, reply).answer)
}
