// The full set of challenges in a round of three or four records, and the first round that has it.
//
// Nothing here refuses: whoever calls has read the records. Scheme 3 has no fourth record.
#![tactic(auto)]

ghost use Rattle.std.specs.Prelude.{◌≡◌, ◌||◌, eqb};
ghost use Rattle.refusal.specs.Refusal.{counted};
ghost use Rattle.full_set.specs.FullSet.{answering as answering_of, full_three, asked_both, full_five, full_set, first_full};

use comparable::Records;
use record::header_of;
use scheme::Scheme;
use slices::byte_at;
use transcript::{round_challenge, round_turn};

// The first of three records whose challenge in a round is the one given, the last where it is no other's.
#[tactic(auto, unfolding(crate::specs::FullSet::answering))]
pub fn answering<'a>(records: &Records<'a>, r: u8, challenge: u8) -> &'a [u8]
    ensures { result.now ≡ answering_of records.now.a.now records.now.b.now records.now.c.now r challenge }
{
    if round_challenge(records.a, r) == challenge {
        records.a
    } else if round_challenge(records.b, r) == challenge {
        records.b
    } else {
        records.c
    }
}

// Whether one of three challenges is the one given.
fn is_one_of(x: u8, y: u8, z: u8, challenge: u8) -> bool
    ensures { result ≡ (eqb x challenge || (eqb y challenge || eqb z challenge)) }
{
    x == challenge || y == challenge || z == challenge
}

// Three passes: challenges 0, 1, 2 in any order. Each record is asked once.
#[tactic(auto, using(crate::proofs::Asked::one_has_it), unfolding(crate::specs::FullSet::full_three))]
fn full_three(records: &Records, r: u8) -> bool
    ensures { result ≡ full_three records.now.a.now records.now.b.now records.now.c.now r }
{
    let x = round_challenge(records.a, r);
    let y = round_challenge(records.b, r);
    let z = round_challenge(records.c, r);
    is_one_of(x, y, z, 0) && is_one_of(x, y, z, 1) && is_one_of(x, y, z, 2)
}

// Five passes: challenges 0, 1 after equal α, t1, e1.
#[tactic(auto, using(slices::proofs::Sameness::pointwise_same), unfolding(crate::specs::FullSet::asked_both))]
fn asked_both(x: &[u8], y: &[u8], r: u8) -> bool
    ensures { result ≡ asked_both x.now y.now r }
{
    round_challenge(x, r) == 0 && round_challenge(y, r) == 1 && round_turn(x, r) == round_turn(y, r)
}

// Five passes: both challenges after each of two different α.
#[tactic(auto, unfolding(crate::specs::FullSet::full_five))]
fn full_five(records: &Records, r: u8) -> bool
    ensures { result ≡ full_five records.now.a.now records.now.b.now records.now.c.now records.now.d.now r }
{
    asked_both(records.a, records.b, r)
        && asked_both(records.c, records.d, r)
        && byte_at(round_turn(records.a, r), 0) != byte_at(round_turn(records.c, r), 0)
}

// Whether a round has the full set of its scheme.
#[tactic(auto, unfolding(crate::specs::FullSet::full_set))]
fn full_set(records: &Records, r: u8) -> bool
    ensures { result ≡ full_set records.now.scheme records.now.a.now records.now.b.now records.now.c.now records.now.d.now r }
{
    match records.scheme {
        Scheme::ThreePass => full_three(records, r),
        Scheme::FivePass => full_five(records, r),
    }
}

// The first round with a full set. A rule of the project: this search is a loop whose value is the round.
#[tactic(auto, using(refusal::proofs::Search::where_start, refusal::proofs::Search::where_step, refusal::proofs::Search::where_here, refusal::proofs::Search::where_end), unfolding(crate::specs::FullSet::first_full))]
pub fn first_full(records: &Records) -> Option<u8>
    ensures { counted result ≡ first_full records.now.scheme records.now.a.now records.now.b.now records.now.c.now records.now.d.now }
{
    let rounds = header_of(records.a).rounds;
    let mut r = 0;
    loop {
        if r == rounds {
            break None;
        }
        if full_set(records, r) {
            break Some(r);
        }
        r += 1;
    }
}
