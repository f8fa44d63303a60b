// The vectors of a round as the card and the simulator form them.
//
// s, r0, t0 and e0 are arguments of their own, as in the definitions: with a struct each contract would have to name its four
// fields.
ghost use Rattle.std.specs.Prelude.{◌≡◌};
ghost use Rattle.field.specs.Ops.{ops};
ghost use Rattle.field.specs.Vector.{sub_v};
ghost use Rattle.protocol.specs.Protocols.{r1_of, t1_of, card_three, unmasked, simulated_e1, simulated_mask, simulated as simulated_of};
ghost use Rattle.protocol.specs.Rounds.{map_of};
ghost use Rattle.round.specs.Pieces.{vectors_of};
ghost use Rattle.round.specs.FivePass.{middle_five};

use crate::pieces::{Middle, Vectors};
use field::{add_vectors, mul_vector, sub_vectors};
use polynomials::{f, g};
use system::System;

// r1 = s - r0.
#[tactic(auto, unfolding(protocol::specs::Protocols::r1_of))]
pub fn r1_of(q: u8, n: u8, s: [u8; 96], r0: [u8; 96]) -> [u8; 96]
    ensures { result ≡ r1_of (sub_v (ops q) n) s r0 }
{
    sub_vectors(q, n, s, r0)
}

// t1 = r0 - t0, of three passes.
#[tactic(auto, unfolding(protocol::specs::Protocols::t1_of))]
pub fn t1_of(q: u8, n: u8, r0: [u8; 96], t0: [u8; 96]) -> [u8; 96]
    ensures { result ≡ t1_of (sub_v (ops q) n) r0 t0 }
{
    sub_vectors(q, n, r0, t0)
}

// Three passes: r1, t1, e1 and c0's second vector.
#[tactic(auto, unfolding(protocol::specs::Protocols::card_three, protocol::specs::Protocols::r1_of, protocol::specs::Protocols::t1_of, protocol::specs::Protocols::e1_of, protocol::specs::Protocols::masked, protocol::specs::Rounds::map_of))]
pub fn card_three(system: &System, s: [u8; 96], r0: [u8; 96], t0: [u8; 96], e0: [u8; 96]) -> Vectors
    ensures { vectors_of result ≡ card_three (map_of system.now.bytes.now) s r0 t0 e0 }
{
    let q = system.q();
    let n = system.n();
    let m = system.m();
    let r1 = r1_of(q, n, s, r0);
    Vectors {
        r0,
        r1,
        t0,
        t1: t1_of(q, n, r0, t0),
        e0,
        e1: sub_vectors(q, m, f(system, r0), e0),
        mask: add_vectors(q, m, g(system, t0, r1), e0),
    }
}

// Five passes: t1 and e1 for α.
#[tactic(auto, unfolding(crate::specs::FivePass::middle_five, protocol::specs::Protocols::t1_by, protocol::specs::Protocols::e1_by, protocol::specs::Rounds::map_of))]
pub fn middle(system: &System, alpha: u8, r0: [u8; 96], t0: [u8; 96], e0: [u8; 96]) -> Middle
    ensures { result ≡ middle_five system.now.bytes.now alpha r0 t0 e0 }
{
    let q = system.q();
    let n = system.n();
    let m = system.m();
    Middle {
        t1: sub_vectors(q, n, mul_vector(q, n, alpha, r0), t0),
        e1: sub_vectors(q, m, mul_vector(q, m, alpha, f(system, r0)), e0),
    }
}

// v - F(r1) - G(t1,r1) - e1, with which challenge 1 opens c0.
#[tactic(auto, unfolding(protocol::specs::Protocols::unmasked, protocol::specs::Rounds::map_of))]
pub fn unmask(system: &System, v: [u8; 96], r1: [u8; 96], t1: [u8; 96], e1: [u8; 96]) -> [u8; 96]
    ensures { result ≡ unmasked (map_of system.now.bytes.now) v r1 t1 e1 }
{
    let q = system.q();
    let m = system.m();
    let left = sub_vectors(q, m, v, f(system, r1));
    sub_vectors(q, m, sub_vectors(q, m, left, g(system, t1, r1)), e1)
}

// The simulator's e1; `unanswered` is Ch*, the challenge that is not answered.
#[tactic(auto, unfolding(protocol::specs::Protocols::simulated_e1, protocol::specs::Protocols::e1_of, protocol::specs::Rounds::map_of))]
fn simulated_e1(
    system: &System,
    unanswered: u8,
    v: [u8; 96],
    s: [u8; 96],
    r0: [u8; 96],
    e0: [u8; 96],
) -> [u8; 96]
    ensures { result ≡ simulated_e1 (map_of system.now.bytes.now) unanswered v s r0 e0 }
{
    let q = system.q();
    let m = system.m();
    match unanswered {
        0 => {
            let left = sub_vectors(q, m, v, f(system, s));
            sub_vectors(q, m, add_vectors(q, m, left, f(system, r0)), e0)
        }
        _ => sub_vectors(q, m, f(system, r0), e0),
    }
}

// What the simulator commits to beside r1.
#[tactic(auto, unfolding(protocol::specs::Protocols::simulated_mask, protocol::specs::Protocols::masked, protocol::specs::Rounds::map_of))]
fn simulated_mask(
    system: &System,
    unanswered: u8,
    v: [u8; 96],
    r1: [u8; 96],
    t0: [u8; 96],
    t1: [u8; 96],
    e0: [u8; 96],
    e1: [u8; 96],
) -> [u8; 96]
    ensures { result ≡ simulated_mask (map_of system.now.bytes.now) unanswered v r1 t0 t1 e0 e1 }
{
    let q = system.q();
    let m = system.m();
    match unanswered {
        2 => unmask(system, v, r1, t1, e1),
        _ => add_vectors(q, m, g(system, t0, r1), e0),
    }
}

// The simulator's vectors, formed without the secret.
#[tactic(auto, unfolding(protocol::specs::Protocols::simulated, protocol::specs::Protocols::r1_of, protocol::specs::Protocols::t1_of, protocol::specs::Rounds::map_of))]
pub fn simulated(
    system: &System,
    unanswered: u8,
    v: [u8; 96],
    s: [u8; 96],
    r0: [u8; 96],
    t0: [u8; 96],
    e0: [u8; 96],
) -> Vectors
    ensures { vectors_of result ≡ simulated_of (map_of system.now.bytes.now) unanswered v s r0 t0 e0 }
{
    let q = system.q();
    let n = system.n();
    let r1 = r1_of(q, n, s, r0);
    let t1 = t1_of(q, n, r0, t0);
    let e1 = simulated_e1(system, unanswered, v, s, r0, e0);
    Vectors {
        r0,
        r1,
        t0,
        t1,
        e0,
        e1,
        mask: simulated_mask(system, unanswered, v, r1, t0, t1, e0, e1),
    }
}
