// Five passes: the commitments, the reply to a challenge, and the string with which a reply opens one of them.
ghost use Rattle.std.specs.Prelude.{◌≡◌};
ghost use Rattle.commitment.specs.Texts.{TextOf};
ghost use Rattle.protocol.specs.Protocols.{unmasked_by};
ghost use Rattle.protocol.specs.Rounds.{map_of};
ghost use Rattle.round.specs.Openings.{string_of, opening_at};
ghost use Rattle.round.specs.FivePass.{commitments_five, reply_five, openings_five};

use crate::card::r1_of;
use crate::pieces::{CommitmentsFive, Middle, ReplyFive, Rhos};
use commitment::{Domain, Text, digest, string_three, string_two};
use field::{add_vectors, mul_vector, sub_vectors};
use polynomials::{f, g};
use system::System;

// c0 and c1.
pub fn commitments_five(
    d: Domain,
    system: &System,
    s: [u8; 96],
    r0: [u8; 96],
    t0: [u8; 96],
    e0: [u8; 96],
    rhos: Rhos,
) -> CommitmentsFive
    ensures { result ≡ commitments_five d system.now.bytes.now s r0 t0 e0 rhos }
{
    let q = system.q();
    let n = system.n();
    let m = system.m();
    let r1 = r1_of(q, n, s, r0);
    let mask = add_vectors(q, m, g(system, t0, r1), e0);
    CommitmentsFive {
        c0: digest(string_three(d, 0, rhos.rho0, r0, n, t0, n, e0, m)),
        c1: digest(string_two(d, 1, rhos.rho1, r1, n, mask, m)),
    }
}

// The reply to a challenge, for which no system is lent: q and n are the session's.
#[tactic(auto, unfolding(crate::specs::FivePass::reply_five))]
pub fn reply_five(q: u8, n: u8, s: [u8; 96], r0: [u8; 96], rhos: Rhos, challenge: u8) -> ReplyFive
    ensures { result ≡ reply_five q n s r0 rhos challenge }
{
    let Rhos { rho0, rho1, .. } = rhos;
    match challenge {
        0 => ReplyFive { x: r0, rho: rho0 },
        _ => ReplyFive {
            x: r1_of(q, n, s, r0),
            rho: rho1,
        },
    }
}

// The second vector that a reply to challenge 1 opens.
#[tactic(auto, unfolding(protocol::specs::Protocols::unmasked_by, protocol::specs::Rounds::map_of))]
fn unmasked_by(
    system: &System,
    alpha: u8,
    v: [u8; 96],
    x: [u8; 96],
    t1: [u8; 96],
    e1: [u8; 96],
) -> [u8; 96]
    ensures { result ≡ unmasked_by (map_of system.now.bytes.now) alpha v x t1 e1 }
{
    let q = system.q();
    let m = system.m();
    let scaled = mul_vector(q, m, alpha, sub_vectors(q, m, v, f(system, x)));
    sub_vectors(q, m, sub_vectors(q, m, scaled, g(system, t1, x)), e1)
}

// The string of the opening: of c0 for challenge 0, else of c1.
pub fn opening_five(
    system: &System,
    d: Domain,
    alpha: u8,
    v: [u8; 96],
    sent: Middle,
    challenge: u8,
    reply: ReplyFive,
) -> Text
    ensures { TextOf (string_of d (opening_at (openings_five system.now.bytes.now alpha v sent challenge reply) 0)) 0 result }
{
    let q = system.q();
    let n = system.n();
    let m = system.m();
    let ReplyFive { x, rho } = reply;
    let Middle { t1, e1 } = sent;
    match challenge {
        0 => {
            let t0 = sub_vectors(q, n, mul_vector(q, n, alpha, x), t1);
            let e0 = sub_vectors(q, m, mul_vector(q, m, alpha, f(system, x)), e1);
            string_three(d, 0, rho, x, n, t0, n, e0, m)
        }
        _ => {
            let mask = unmasked_by(system, alpha, v, x, t1, e1);
            string_two(d, 1, rho, x, n, mask, m)
        }
    }
}
