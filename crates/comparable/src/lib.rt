// What an audit refuses before it looks for a full set: of the system, of each record, of records that differ, and of a round
// that is rejected.
//
// Scheme 3 has no fourth record, and what stands in its place is not looked at there.
#![tactic(auto)]

ghost use Rattle.std.specs.Prelude.{ℕ, ◌≡◌, ◌<◌, List, IfOk, IfErr, IfSome};
ghost use Rattle.refusal.specs.Refusal.{number_of, counted};
ghost use Rattle.comparable.specs.Comparable.{audited_refusal, difference_refusal, of_fourth, comparable_refusal};
ghost use Rattle.comparable.specs.Comparable.{of_record, rejected_round, rejected_in, rejection_of, rejection_or, rejection_in};

use record::{body_of, header_of, read};
use refusal::{Refusal, require};
use scheme::Scheme;
use slices::part;
use system::System;
use transcript::{accepts_round, check_fit};

// The records of an audit, with their scheme; scheme 3 has no `d`, and what is there is not looked at.
#[derive(Clone, Copy)]
pub struct Records<'a> {
    pub scheme: Scheme,
    pub a: &'a [u8],
    pub b: &'a [u8],
    pub c: &'a [u8],
    pub d: &'a [u8],
}

impl<'a> Records<'a> {
    // The fourth record, which scheme 3 has not.
    #[tactic(auto, unfolding(crate::specs::Comparable::of_fourth))]
    fn fourth(&self) -> Option<&'a [u8]>
        ensures { (asked : List ℕ → ℕ) → of_record asked result ≡ of_fourth self.now.scheme (asked self.now.d.now) }
    {
        match self.scheme {
            Scheme::ThreePass => None,
            Scheme::FivePass => Some(self.d),
        }
    }
}

// Refuses one record, where there is one. A rule of the project: its reading is taken apart by `let .. else`.
#[tactic(auto, using(refusal::proofs::Answers::chain, crate::proofs::Schemes::same_scheme), unfolding(crate::specs::Comparable::audited_refusal, record_form::specs::Record::layout_of))]
fn check_audited(scheme: Scheme, bytes: Option<&[u8]>) -> Result<(), Refusal>
    ensures { number_of result ≡ of_record (audited_refusal scheme) bytes.entry }
{
    let Some(bytes) = bytes else {
        return Ok(());
    };
    let reading = read(bytes);
    let Ok(layout) = reading else {
        return reading.map(|_| ());
    };
    require(layout.header.scheme == scheme, Refusal::Value)
}

// Refuses a record, where there is one, that differs from the first in the header, the key or a commitment; it ends at the first
// of the three that differs.
#[tactic(auto, using(refusal::proofs::Answers::chain, slices::proofs::Sameness::pointwise_same), unfolding(crate::specs::Comparable::difference_refusal, record_form::specs::Record::fields_in))]
fn check_alike(a: &[u8], b: Option<&[u8]>) -> Result<(), Refusal>
    ensures { number_of result ≡ of_record (difference_refusal a.now) b.entry }
{
    let Some(b) = b else {
        return Ok(());
    };
    let of_a = header_of(a).layout();
    let of_b = header_of(b).layout();
    require(part(a, 0, 6) == part(b, 0, 6), Refusal::Mismatch)?;
    require(
        body_of(a, of_a.key) == body_of(b, of_b.key),
        Refusal::Mismatch,
    )?;
    require(
        body_of(a, of_a.commitments) == body_of(b, of_b.commitments),
        Refusal::Mismatch,
    )
}

// The checked system, or the refusal before any round is judged; it ends at the first.
#[tactic(auto, using(refusal::proofs::Answers::chain), unfolding(crate::specs::Comparable::comparable_refusal))]
pub fn check_comparable<'a>(system: &'a [u8], records: &Records) -> Result<System<'a>, Refusal>
    ensures refusal { number_of result ≡ comparable_refusal records.now.scheme system.now records.now.a.now records.now.b.now
        records.now.c.now records.now.d.now }
    ensures bytes { IfOk result (λ checked. checked.bytes.now ≡ system.now) }
{
    let checked = System::new(system)?;
    check_audited(records.scheme, Some(records.a))?;
    check_audited(records.scheme, Some(records.b))?;
    check_audited(records.scheme, Some(records.c))?;
    check_audited(records.scheme, records.fourth())?;
    check_fit(system, records.a)?;
    check_alike(records.a, Some(records.b))?;
    check_alike(records.a, Some(records.c))?;
    check_alike(records.a, records.fourth())?;
    Ok(checked)
}

// The first rejected round of a record.
#[tactic(auto, using(refusal::proofs::Search::where_start, refusal::proofs::Search::where_step, refusal::proofs::Search::where_here, refusal::proofs::Search::where_end), unfolding(crate::specs::Comparable::rejected_round))]
fn rejected_round(system: &System, bytes: &[u8]) -> Option<u8>
    ensures found { counted result ≡ rejected_round system.now.bytes.now bytes.now }
    ensures below { IfSome result (λ r. r < 255) }
{
    for r in 0..header_of(bytes).rounds {
        if !accepts_round(system, bytes, r) {
            return Some(r);
        }
    }
    None
}

// The first record with a rejected round, and that round, both counted from 1. Numbers, as a finding gives them: an enum for
// `whose`, with its conversion and what it means, would be longer than the clause `0 < rejection.whose` that it saves.
#[derive(Clone, Copy)]
pub struct Rejection {
    pub whose: u8,
    pub round: u8,
}

// Refuses a record, where there is one, with a rejected round.
#[tactic(auto, using(crate::proofs::Rejections::rejections))]
fn check_accepted(system: &System, whose: u8, bytes: Option<&[u8]>) -> Result<(), Rejection>
    requires { 0 < whose }
    ensures is { (later : Rejection) → rejected_in whose (of_record (rejected_round system.now.bytes.now) bytes.entry) later ≡ rejection_or later result }
    ensures whose { IfErr result (λ rejection. 0 < rejection.whose) }
{
    let Some(bytes) = bytes else {
        return Ok(());
    };
    match rejected_round(system, bytes) {
        Some(r) => Err(Rejection {
            whose,
            round: r + 1,
        }),
        None => Ok(()),
    }
}

// Refuses records of which one has a rejected round; it ends at the first.
#[tactic(auto, using(crate::proofs::Rejections::rejections), unfolding(crate::specs::Comparable::rejection_of, crate::specs::Comparable::later_rejection))]
pub fn check_rounds(system: &System, records: &Records) -> Result<(), Rejection>
    ensures is { rejection_in result ≡ rejection_of records.now.scheme system.now.bytes.now records.now.a.now records.now.b.now
        records.now.c.now records.now.d.now }
    ensures whose { IfErr result (λ rejection. 0 < rejection.whose) }
{
    check_accepted(system, 1, Some(records.a))?;
    check_accepted(system, 2, Some(records.b))?;
    check_accepted(system, 3, Some(records.c))?;
    check_accepted(system, 4, records.fourth())
}
