// The session's struct.
ghost use Rattle.std.specs.Prelude.{◌≡◌};
ghost use Rattle.card_state.specs.Card.{phase_number, no_rhos, no_lent, card_domain, closed_card, card_with, held_lent};

use commitment::Domain;
use exchange::Lent;
use round::Rhos;
use scheme::Scheme;
use session_state::{Phase, Verdict};

// The next call that is due.
#[derive(Clone, Copy, Debug, PartialEq, Eq)]
pub enum CardPhase {
    Commit,
    AnswerAlpha,
    Reply,
    Closed(Verdict),
}

// A card's session: what it was opened with, how many rounds are over, and what is lent for this one. e1 is that of three
// passes, formed when the card commits; the system is not lent again for the reply.
#[derive(Clone, Copy)]
pub struct Card {
    pub phase: CardPhase,
    pub scheme: Scheme,
    pub q: u8,
    pub n: u8,
    pub m: u8,
    pub rounds: u8,
    pub round: u8,
    pub s: [u8; 96],
    pub r0: [u8; 96],
    pub t0: [u8; 96],
    pub e0: [u8; 96],
    pub e1: [u8; 96],
    pub rhos: Rhos,
}

impl Phase for CardPhase {
    ghost number = { phase_number };

    #[tactic(auto, unfolding(crate::specs::Card::phase_number))]
    fn is_closed(&self) -> bool {
        matches!(self, CardPhase::Closed(_))
    }

    #[tactic(auto, unfolding(crate::specs::Card::phase_number))]
    fn is(&self, due: &CardPhase) -> bool {
        self == due
    }
}

// What stands before ρ in every string that is hashed in the session.
#[tactic(auto, unfolding(crate::specs::Card::card_domain))]
pub fn card_domain(card: Card) -> Domain
    ensures { result ≡ card_domain card }
{
    Domain {
        scheme: card.scheme,
    }
}

// No ρ lent.
#[tactic(auto, unfolding(crate::specs::Card::no_rhos, slices::specs::Slices::zeros))]
pub fn no_rhos() -> Rhos
    ensures { result ≡ no_rhos }
{
    Rhos {
        rho0: [0; 32],
        rho1: [0; 32],
        rho2: [0; 32],
    }
}

// Nothing lent.
#[tactic(auto, unfolding(crate::specs::Card::no_lent, slices::specs::Slices::zeros))]
pub fn no_lent() -> Lent
    ensures { result ≡ no_lent }
{
    Lent {
        r0: [0; 96],
        t0: [0; 96],
        e0: [0; 96],
        rhos: no_rhos(),
    }
}

// A closed session: zeros, and the first scheme.
#[tactic(auto, unfolding(crate::specs::Card::closed_card, slices::specs::Slices::zeros))]
pub fn closed_card() -> Card
    ensures { result ≡ closed_card }
{
    Card {
        phase: CardPhase::Closed(Verdict::None),
        scheme: Scheme::ThreePass,
        q: 0,
        n: 0,
        m: 0,
        rounds: 0,
        round: 0,
        s: [0; 96],
        r0: [0; 96],
        t0: [0; 96],
        e0: [0; 96],
        e1: [0; 96],
        rhos: no_rhos(),
    }
}

// The same session in another phase and round, with what is lent for it. A field's array goes into a literal by a local: else there is no proof.
#[tactic(auto, unfolding(crate::specs::Card::card_with))]
pub fn card_with(card: Card, phase: CardPhase, round: u8, l: Lent, e1: [u8; 96]) -> Card
    ensures { result ≡ card_with card phase round l e1 }
{
    let (r0, t0, e0) = (l.r0, l.t0, l.e0);
    Card {
        phase,
        round,
        r0,
        t0,
        e0,
        e1,
        rhos: l.rhos,
        ..card
    }
}

// What is lent for the round, as the card holds it.
#[tactic(auto, unfolding(crate::specs::Card::held_lent))]
pub fn held_lent(card: Card) -> Lent
    ensures { result ≡ held_lent card }
{
    let (r0, t0, e0) = (card.r0, card.t0, card.e0);
    Lent {
        r0,
        t0,
        e0,
        rhos: card.rhos,
    }
}
