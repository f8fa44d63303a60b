// The judgement of a reply: every opening must hash to its commitment. A round's check is where a copied card would get in.
//
// Commitments are given by their bytes, one behind the other.
#![tactic(auto)]

ghost use Rattle.std.specs.Prelude.{◌≡◌};
ghost use Rattle.slices.specs.Slices.{same};
ghost use Rattle.sha256.specs.Sha256.{sha256};
ghost use Rattle.commitment.specs.Texts.{content, Room};
ghost use Rattle.round.specs.Openings.{commitment_at, all_open};
ghost use Rattle.round.specs.ThreePass.{openings_three};
ghost use Rattle.round.specs.FivePass.{openings_five};

use commitment::{Domain, Text, digest};
use round::{Middle, ReplyFive, ReplyThree, first_opening, opening_five, second_opening};
use slices::bytes_at;
use system::System;

// Whether a string hashes to commitment k.
#[tactic(auto, using(slices::proofs::Sameness::pointwise_same), unfolding(round::specs::Openings::commitment_at, round::specs::Openings::bytes_at))]
fn opens(t: Text, commitments: &[u8], k: u8) -> bool
    requires { Room 0 t }
    ensures { result ≡ same (sha256 (content t)) (commitment_at commitments.now k) }
{
    digest(t) == bytes_at(commitments, 32 * usize::from(k))
}

// Three passes: both openings.
pub fn accepts_three(
    system: &System,
    d: Domain,
    v: [u8; 96],
    commitments: &[u8],
    challenge: u8,
    reply: ReplyThree,
) -> bool
    ensures { result ≡ all_open d commitments.now (openings_three system.now.bytes.now v challenge reply) }
{
    let a = first_opening(system, d, v, challenge, reply);
    let b = second_opening(system.bytes, d, challenge, reply);
    match challenge {
        0 => opens(a, commitments, 1) && opens(b, commitments, 2),
        1 => opens(a, commitments, 0) && opens(b, commitments, 2),
        _ => opens(a, commitments, 0) && opens(b, commitments, 1),
    }
}

// Five passes: the one opening.
pub fn accepts_five(
    system: &System,
    d: Domain,
    v: [u8; 96],
    commitments: &[u8],
    alpha: u8,
    sent: Middle,
    challenge: u8,
    reply: ReplyFive,
) -> bool
    ensures { result ≡ all_open d commitments.now (openings_five system.now.bytes.now alpha v sent challenge reply) }
{
    let t = opening_five(system, d, alpha, v, sent, challenge, reply);
    match challenge {
        0 => opens(t, commitments, 0),
        _ => opens(t, commitments, 1),
    }
}
