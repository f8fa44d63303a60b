// Cases of the card's calls: commit, the answer to α, reply. They answer 0.
use crate::compare::{
    same_five_commitments, same_middle, same_reply_five, same_reply_three, same_three_commitments,
};
use cases::{Case, Small};
use commitment::Domain;
use exchange::{Lent, read_lent};
use field::from_slice;
use round::{card_three, commitments_five, commitments_three, middle, reply_five, reply_three};
use scheme::Scheme;
use system::System;

pub fn commit_case(mut case: Case, system: &System) -> Option<bool> {
    let scheme = case.pieces.byte()?;
    let s = case.pieces.small()?;
    let lent = case.pieces.small()?;
    let expected = case.pieces.small()?;
    let Ok(scheme) = Scheme::try_from(scheme) else {
        return Some(false);
    };
    Some(case.number == 0 && commits(system, scheme, &s, &lent, &expected))
}

// Whether the card's commitments are those expected.
fn commits(system: &System, scheme: Scheme, s: &Small, lent: &Small, expected: &Small) -> bool {
    let (n, m) = (system.n(), system.m());
    let s = vector_of(s);
    let Lent { r0, t0, e0, rhos } = lent_of(system, lent);
    let d = Domain { scheme };
    match scheme {
        Scheme::ThreePass => {
            let w = card_three(system, s, r0, t0, e0);
            same_three_commitments(commitments_three(d, n, m, w, rhos), expected)
        }
        Scheme::FivePass => {
            let made = commitments_five(d, system, s, r0, t0, e0, rhos);
            same_five_commitments(made, expected)
        }
    }
}

pub fn answer_case(mut case: Case, system: &System) -> Option<bool> {
    let alpha = case.pieces.byte()?;
    let lent = case.pieces.small()?;
    let expected = case.pieces.small()?;
    Some(case.number == 0 && answers(system, alpha, &lent, &expected))
}

// Whether the card's t1 and e1 are those expected.
fn answers(system: &System, alpha: u8, lent: &Small, expected: &Small) -> bool {
    let Lent { r0, t0, e0, .. } = lent_of(system, lent);
    let made = middle(system, alpha, r0, t0, e0);
    same_middle(made, expected, system.n(), system.m())
}

pub fn reply_case(mut case: Case, system: &System) -> Option<bool> {
    let scheme = case.pieces.byte()?;
    let s = case.pieces.small()?;
    let lent = case.pieces.small()?;
    let challenge = case.pieces.byte()?;
    let expected = case.pieces.small()?;
    let Ok(scheme) = Scheme::try_from(scheme) else {
        return Some(false);
    };
    Some(case.number == 0 && replies(system, scheme, &s, &lent, challenge, &expected))
}

// Whether the card's reply is the one expected.
fn replies(
    system: &System,
    scheme: Scheme,
    s: &Small,
    lent: &Small,
    challenge: u8,
    expected: &Small,
) -> bool {
    let (n, m) = (system.n(), system.m());
    let s = vector_of(s);
    let Lent { r0, t0, e0, rhos } = lent_of(system, lent);
    match scheme {
        Scheme::ThreePass => {
            let w = card_three(system, s, r0, t0, e0);
            same_reply_three(reply_three(w, rhos, challenge), expected, n, m)
        }
        Scheme::FivePass => {
            let made = reply_five(system.q(), n, s, r0, rhos, challenge);
            same_reply_five(made, expected, n, m)
        }
    }
}

// What is lent for a round, from its piece.
fn lent_of(system: &System, piece: &Small) -> Lent {
    read_lent(&piece.bytes, system.n(), system.m())
}

// The vector of a piece.
pub fn vector_of(piece: &Small) -> [u8; 96] {
    from_slice(&piece.bytes)
}
