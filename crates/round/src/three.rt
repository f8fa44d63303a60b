// Three passes: the commitments, the reply to a challenge, and the strings with which a reply opens two of them.
ghost use Rattle.std.specs.Prelude.{ℕ, ◌≡◌, List};
ghost use Rattle.commitment.specs.Texts.{Room, TextOf};
ghost use Rattle.round.specs.declared.pieces.ReplyThree.{ReplyThree as ReplyThree·};
ghost use Rattle.round.specs.Pieces.{vectors_of};
ghost use Rattle.round.specs.Openings.{string_of, opening_at};
ghost use Rattle.round.specs.ThreePass.{commitments_three, reply_three, openings_three};

use crate::card::unmask;
use crate::pieces::{CommitmentsThree, ReplyThree, Rhos, Vectors};
use commitment::{Domain, Text, digest, string_two};
use field::{add_vectors, sub_vectors};
use polynomials::{f, g};
use slices::byte_at;
use system::System;

// c0, c1 and c2.
pub fn commitments_three(d: Domain, n: u8, m: u8, w: Vectors, rhos: Rhos) -> CommitmentsThree
    ensures { result ≡ commitments_three d n m (vectors_of w) rhos }
{
    CommitmentsThree {
        c0: digest(string_two(d, 0, rhos.rho0, w.r1, n, w.mask, m)),
        c1: digest(string_two(d, 1, rhos.rho1, w.t0, n, w.e0, m)),
        c2: digest(string_two(d, 2, rhos.rho2, w.t1, n, w.e1, m)),
    }
}

// The reply to a challenge.
#[tactic(auto, unfolding(crate::specs::ThreePass::reply_three))]
pub fn reply_three(w: Vectors, rhos: Rhos, challenge: u8) -> ReplyThree
    ensures { result ≡ reply_three (vectors_of w) rhos challenge }
{
    let Vectors {
        r0,
        r1,
        t0,
        t1,
        e0,
        e1,
        ..
    } = w;
    let Rhos { rho0, rho1, rho2 } = rhos;
    match challenge {
        0 => ReplyThree {
            x: r0,
            y: t1,
            z: e1,
            first: rho1,
            second: rho2,
        },
        1 => ReplyThree {
            x: r1,
            y: t1,
            z: e1,
            first: rho0,
            second: rho2,
        },
        _ => ReplyThree {
            x: r1,
            y: t0,
            z: e0,
            first: rho0,
            second: rho1,
        },
    }
}

// The number of the commitment that the first opening of a reply is of, whatever the reply.
pub fn first_number(challenge: u8) -> u8
    ensures { (b v : List ℕ) (r : ReplyThree·) → result ≡ (opening_at (openings_three b v challenge r) 0).k }
{
    match challenge {
        0 => 1,
        _ => 0,
    }
}

// The string of the first opening: of c1 for challenge 0, else of c0.
pub fn first_opening(
    system: &System,
    d: Domain,
    v: [u8; 96],
    challenge: u8,
    reply: ReplyThree,
) -> Text
    ensures { TextOf (string_of d (opening_at (openings_three system.now.bytes.now v challenge reply) 0)) 96 result }
{
    let q = system.q();
    let n = system.n();
    let m = system.m();
    let ReplyThree {
        x,
        y,
        z,
        first: rho,
        ..
    } = reply;
    match challenge {
        0 => {
            let t0 = sub_vectors(q, n, x, y);
            let e0 = sub_vectors(q, m, f(system, x), z);
            string_two(d, 1, rho, t0, n, e0, m)
        }
        1 => string_two(d, 0, rho, x, n, unmask(system, v, x, y, z), m),
        _ => {
            let mask = add_vectors(q, m, g(system, y, x), z);
            string_two(d, 0, rho, x, n, mask, m)
        }
    }
}

// The string of the second opening, whatever v: of c1 for challenge 2, else of c2. The system is any bytes: a `System` would ask more of
// callers.
pub fn second_opening(system: &[u8], d: Domain, challenge: u8, reply: ReplyThree) -> Text
    ensures { Room 96 result × ((v : List ℕ) → TextOf (string_of d (opening_at (openings_three system.now v challenge reply) 1)) 96 result) }
{
    let n = byte_at(system, 1);
    let m = byte_at(system, 2);
    let ReplyThree {
        y,
        z,
        second: rho,
        ..
    } = reply;
    match challenge {
        0 | 1 => string_two(d, 2, rho, y, n, z, m),
        _ => string_two(d, 1, rho, y, n, z, m),
    }
}
