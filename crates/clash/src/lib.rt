// The pairs of openings that are compared in a round with a full set, and the first that differs.
//
// Nothing here refuses: whoever calls has checked the system and read the records. Scheme 3 has no fourth record.
#![tactic(auto)]

ghost use Rattle.std.specs.Prelude.{◌≡◌};
ghost use Rattle.refusal.specs.Refusal.{counted};
ghost use Rattle.clash.specs.Clash.{lower_challenge, higher_challenge, opener_five, left_record, right_record};
ghost use Rattle.clash.specs.Clash.{left_string, right_string, PairOf, same_pair, first_clash};

use commitment::Text;
use comparable::Records;
use full_set::answering;
use openings::{opened_string, same_vectors};
use scheme::Scheme;
use system::System;
use transcript::domain_in;

// Three passes: the lower of the two challenges whose replies open commitment k.
#[tactic(auto, unfolding(crate::specs::Clash::lower_challenge))]
fn lower_challenge(k: u8) -> u8
    ensures { result ≡ lower_challenge k }
{
    match k {
        0 => 1,
        _ => 0,
    }
}

// And the higher.
#[tactic(auto, unfolding(crate::specs::Clash::higher_challenge))]
fn higher_challenge(k: u8) -> u8
    ensures { result ≡ higher_challenge k }
{
    match k {
        0 | 1 => 2,
        _ => 1,
    }
}

// Five passes: of two records with the challenges 0 and 1, the one that opens commitment k.
#[tactic(auto, unfolding(crate::specs::Clash::opener_five))]
fn opener_five<'a>(x: &'a [u8], y: &'a [u8], k: u8) -> &'a [u8]
    ensures { result.now ≡ opener_five x.now y.now k }
{
    if k == 0 { x } else { y }
}

// The record whose opening of commitment k stands first.
#[tactic(auto, unfolding(crate::specs::Clash::left_record))]
fn left_record<'a>(records: &Records<'a>, r: u8, k: u8) -> &'a [u8]
    ensures { result.now ≡ left_record records.now.scheme records.now.a.now records.now.b.now records.now.c.now r k }
{
    match records.scheme {
        Scheme::ThreePass => answering(records, r, lower_challenge(k)),
        Scheme::FivePass => opener_five(records.a, records.b, k),
    }
}

// The record whose opening of commitment k is compared with it.
#[tactic(auto, unfolding(crate::specs::Clash::right_record))]
fn right_record<'a>(records: &Records<'a>, r: u8, k: u8) -> &'a [u8]
    ensures { result.now ≡ right_record records.now.scheme records.now.a.now records.now.b.now records.now.c.now records.now.d.now r k }
{
    match records.scheme {
        Scheme::ThreePass => answering(records, r, higher_challenge(k)),
        Scheme::FivePass => opener_five(records.c, records.d, k),
    }
}

// The two strings that open commitment k, the one that stands first on the left.
#[derive(Clone, Copy)]
pub struct Pair {
    pub left: Text,
    pub right: Text,
}

#[tactic(auto, unfolding(crate::specs::Clash::left_string, crate::specs::Clash::right_string))]
pub fn opened_pair(system: &System, records: &Records, r: u8, k: u8) -> Pair
    ensures { PairOf result (left_string records.now.scheme system.now.bytes.now records.now.a.now records.now.b.now records.now.c.now r k)
        (right_string records.now.scheme system.now.bytes.now records.now.a.now records.now.b.now records.now.c.now records.now.d.now r k) }
{
    let left = opened_string(system, left_record(records, r, k), r, k);
    let right = opened_string(system, right_record(records, r, k), r, k);
    Pair { left, right }
}

// Whether both open commitment k with the same vectors.
fn same_pair(system: &System, records: &Records, r: u8, k: u8) -> bool
    ensures { result ≡ same_pair records.now.scheme system.now.bytes.now records.now.a.now records.now.b.now records.now.c.now records.now.d.now r k }
{
    let Pair { left, right } = opened_pair(system, records, r, k);
    same_vectors(domain_in(records.a), left, right)
}

// The first commitment whose pair differs.
#[tactic(auto, using(refusal::proofs::Search::where_start, refusal::proofs::Search::where_step, refusal::proofs::Search::where_here, refusal::proofs::Search::where_end), unfolding(crate::specs::Clash::first_clash))]
pub fn first_clash(system: &System, records: &Records, r: u8) -> Option<u8>
    ensures { counted result ≡ first_clash records.now.scheme system.now.bytes.now records.now.a.now records.now.b.now records.now.c.now records.now.d.now r }
{
    for k in 0..records.scheme.commitment_count() {
        if !same_pair(system, records, r, k) {
            return Some(k);
        }
    }
    None
}
