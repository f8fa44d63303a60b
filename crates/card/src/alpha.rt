// The card's reply to α.
ghost use Rattle.std.specs.Prelude.{◌≡◌, length};
ghost use Rattle.refusal.specs.Refusal.{number_of, kept};
ghost use Rattle.card_state.specs.Card.{alpha_refusal, answered_card, sent_middle};

use card_state::{Card, CardPhase, card_with, check_alpha, held_lent};
use exchange::write_middle;
use round::middle;
use session_state::Answered;

// Five passes: writes t1 and e1 for α to `out`.
#[tactic(auto, using(refusal::proofs::Answers::chain, card_state::proofs::Taken::alpha_room), unfolding(card_state::specs::Card::answered_card, card_state::specs::Card::sent_middle, exchange::specs::Messages::middle_bytes))]
pub fn answer_alpha(card: Card, system: &[u8], alpha: u8, out: &mut [u8]) -> Answered<Card, ()>
    ensures answer { number_of result.answer ≡ alpha_refusal card system.now alpha (length out.old) }
    ensures session { result.session ≡ kept (number_of result.answer) card (answered_card card) }
    ensures out { out.new ≡ kept (number_of result.answer) out.old (sent_middle card system.now alpha) }
{
    match check_alpha(card, system, alpha, out.len()) {
        Ok(system) => {
            let sent = middle(&system, alpha, card.r0, card.t0, card.e0);
            write_middle(sent, system.n(), system.m(), out);
            Answered::done(
                (),
                card_with(card, CardPhase::Reply, card.round, held_lent(card), card.e1),
            )
        }
        Err(refusal) => Answered::refused(refusal, card),
    }
}
