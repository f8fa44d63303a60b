// The session's struct.
ghost use Rattle.std.specs.Prelude.{◌≡◌};
ghost use Rattle.carrier_state.specs.Carrier.{phase_number, carrier_domain, held_commitments, held_turn, no_turn, closed_carrier, carrier_with};

use commitment::Domain;
use scheme::Scheme;
use session_state::{Phase, Verdict};
use slices::bytes_at;

// The next call that is due.
#[derive(Clone, Copy, Debug, PartialEq, Eq)]
pub enum CarrierPhase {
    TakeCommitments,
    SetAlpha,
    TakeMiddle,
    SetChallenge,
    TakeReply,
    Closed(Verdict),
}

// A carrier's session: what it was opened with, how many rounds were accepted, and the messages of this one so far; `turn` is
// α, t1 and e1 of scheme 5, as in a record.
#[derive(Clone, Copy)]
pub struct Carrier {
    pub phase: CarrierPhase,
    pub scheme: Scheme,
    pub q: u8,
    pub n: u8,
    pub m: u8,
    pub rounds: u8,
    pub accepted: u8,
    pub v: [u8; 96],
    pub commitments: [u8; 96],
    pub turn: [u8; 193],
    pub challenge: u8,
}

impl Phase for CarrierPhase {
    ghost number = { phase_number };

    #[tactic(auto, unfolding(crate::specs::Carrier::phase_number))]
    fn is_closed(&self) -> bool {
        matches!(self, CarrierPhase::Closed(_))
    }

    #[tactic(auto, unfolding(crate::specs::Carrier::phase_number))]
    fn is(&self, due: &CarrierPhase) -> bool {
        self == due
    }
}

// What stands before ρ in every string that is hashed in the session.
#[tactic(auto, unfolding(crate::specs::Carrier::carrier_domain))]
pub fn carrier_domain(c: Carrier) -> Domain
    ensures { result ≡ carrier_domain c }
{
    Domain { scheme: c.scheme }
}

// The commitments of a round, zero beyond their length; of none, zeros.
#[tactic(auto, unfolding(crate::specs::Carrier::held_commitments))]
pub fn held_commitments(s: &[u8]) -> [u8; 96]
    ensures { result ≡ held_commitments s.now }
{
    bytes_at(s, 0)
}

// No α, t1 and e1: zeros.
#[tactic(auto, unfolding(crate::specs::Carrier::no_turn, slices::specs::Slices::zeros))]
pub fn no_turn() -> [u8; 193]
    ensures { result ≡ no_turn }
{
    [0; 193]
}

// A closed session: the verdict, the count of accepted rounds, zeros, and the first scheme.
#[tactic(auto, unfolding(crate::specs::Carrier::closed_carrier, slices::specs::Slices::zeros))]
pub fn closed_carrier(verdict: Verdict, accepted: u8) -> Carrier
    ensures { result ≡ closed_carrier verdict accepted }
{
    let (commitments, turn) = (held_commitments(&[]), no_turn());
    Carrier {
        phase: CarrierPhase::Closed(verdict),
        scheme: Scheme::ThreePass,
        q: 0,
        n: 0,
        m: 0,
        rounds: 0,
        accepted,
        v: [0; 96],
        commitments,
        turn,
        challenge: 0,
    }
}

// The same session in another phase, with the messages of the round so far.
#[tactic(auto, unfolding(crate::specs::Carrier::carrier_with))]
pub fn carrier_with(
    c: Carrier,
    phase: CarrierPhase,
    accepted: u8,
    commitments: [u8; 96],
    turn: [u8; 193],
    challenge: u8,
) -> Carrier
    ensures { result ≡ carrier_with c phase accepted commitments turn challenge }
{
    Carrier {
        phase,
        accepted,
        commitments,
        turn,
        challenge,
        ..c
    }
}

// α and what stands behind it, zero beyond their length.
pub fn held_turn(alpha: u8, s: &[u8]) -> [u8; 193]
    ensures { result ≡ held_turn alpha s.now }
{
    let mut out = [alpha; 193];
    let behind: [u8; 192] = bytes_at(s, 0);
    out[1..].copy_from_slice(&behind);
    out
}
