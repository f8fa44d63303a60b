// The card's reply to a challenge, with which its round ends.
ghost use Rattle.std.specs.Prelude.{◌≡◌, true, length};
ghost use Rattle.refusal.specs.Refusal.{number_of, kept};
ghost use Rattle.system.specs.System.{are_sizes};
ghost use Rattle.scheme.specs.Scheme.{reply_length};
ghost use Rattle.round.specs.Pieces.{vectors_of};
ghost use Rattle.card_state.specs.Card.{reply_refusal, replied_card, held_vectors, sent_reply};

use card_state::{Card, CardPhase, card_with, check_reply, closed_card, no_lent};
use exchange::{write_reply_five, write_reply_three};
use round::{Vectors, r1_of, reply_five, reply_three, t1_of};
use scheme::Scheme;
use session_state::{Answered, next_count};

// The vectors of a three-pass round as the card holds them.
#[tactic(auto, unfolding(card_state::specs::Card::held_vectors, slices::specs::Slices::zeros))]
fn held_vectors(card: Card) -> Vectors
    ensures { vectors_of result ≡ held_vectors card }
{
    let (s, r0, t0, e0, e1) = (card.s, card.r0, card.t0, card.e0, card.e1);
    let r1 = r1_of(card.q, card.n, s, r0);
    let t1 = t1_of(card.q, card.n, r0, t0);
    Vectors {
        r0,
        r1,
        t0,
        t1,
        e0,
        e1,
        mask: [0; 96],
    }
}

fn write_reply(card: Card, challenge: u8, out: &mut [u8])
    requires { (are_sizes card.q card.n card.m ≡ true)
        × (length out.old ≡ reply_length card.scheme card.n card.m) }
    ensures { out.new ≡ sent_reply card challenge }
{
    match card.scheme {
        Scheme::ThreePass => {
            let sent = reply_three(held_vectors(card), card.rhos, challenge);
            write_reply_three(sent, card.n, card.m, out);
        }
        Scheme::FivePass => {
            let sent = reply_five(card.q, card.n, card.s, card.r0, card.rhos, challenge);
            write_reply_five(sent, card.n, out);
        }
    }
}

// The session after a reply: in its next round, nothing lent, or closed.
fn replied_card(card: Card) -> Card
    ensures { result ≡ replied_card card }
{
    let next = next_count(card.round);
    if next < card.rounds {
        card_with(card, CardPhase::Commit, next, no_lent(), [0; 96])
    } else {
        closed_card()
    }
}

// Writes the reply to a challenge to `out`, and forgets what was lent for the round.
#[tactic(auto, using(refusal::proofs::Answers::chain, card_state::proofs::Taken::reply_taken_lem))]
pub fn reply(card: Card, challenge: u8, out: &mut [u8]) -> Answered<Card, ()>
    ensures answer { number_of result.answer ≡ reply_refusal card challenge (length out.old) }
    ensures session { result.session ≡ kept (number_of result.answer) card (replied_card card) }
    ensures out { out.new ≡ kept (number_of result.answer) out.old (sent_reply card challenge) }
{
    match check_reply(card, challenge, out.len()) {
        Ok(()) => {
            write_reply(card, challenge, out);
            Answered::done((), replied_card(card))
        }
        Err(refusal) => Answered::refused(refusal, card),
    }
}
