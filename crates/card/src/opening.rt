// The opening of a card's session.
ghost use Rattle.std.specs.Prelude.{◌≡◌};
ghost use Rattle.refusal.specs.Refusal.{number_of, kept};
ghost use Rattle.card_state.specs.Card.{open_refusal, closed_card, opened_card};

use card_state::{Card, CardPhase, check_open, closed_card, no_rhos};
use field::from_slice;
use scheme::scheme_of;
use session_state::Answered;
use system::System;

// A session in its first round.
#[tactic(auto, unfolding(card_state::specs::Card::opened_card, slices::specs::Slices::zeros))]
fn opened_card(system: &System, scheme: u8, rounds: u8, s: &[u8]) -> Card
    ensures { result ≡ opened_card system.now.bytes.now scheme rounds s.now }
{
    let s = from_slice(s);
    Card {
        phase: CardPhase::Commit,
        scheme: scheme_of(scheme),
        q: system.q(),
        n: system.n(),
        m: system.m(),
        rounds,
        round: 0,
        s,
        r0: [0; 96],
        t0: [0; 96],
        e0: [0; 96],
        e1: [0; 96],
        rhos: no_rhos(),
    }
}

// Opens a session of so many rounds, for a card with the secret s and the key v = F(s).
#[tactic(auto, using(refusal::proofs::Answers::chain))]
pub fn open<'a>(
    system: &'a [u8],
    scheme: u8,
    rounds: u8,
    v: &'a [u8],
    s: &'a [u8],
) -> Answered<Card, ()>
    ensures answer { number_of result.answer ≡ open_refusal system.now scheme rounds v.now s.now }
    ensures session { result.session ≡ kept (number_of result.answer) closed_card (opened_card system.now scheme rounds s.now) }
{
    match check_open(system, scheme, rounds, v, s) {
        Ok(system) => Answered::done((), opened_card(&system, scheme, rounds, s)),
        Err(refusal) => Answered::refused(refusal, closed_card()),
    }
}
