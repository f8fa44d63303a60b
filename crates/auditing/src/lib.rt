// The audit: from records whose commitments repeat, the card's secret, or one commitment opened in two ways.
//
// The entries `audit_three` and `audit_five` take any bytes. Each checks the system, then each record in turn, then that the
// records belong together, then judges every round, and then looks for the first round with a full set of challenges.
#![tactic(auto)]

ghost use Rattle.std.specs.Prelude.{◌≡◌};
ghost use Rattle.refusal.specs.Refusal.{number};
ghost use Rattle.auditing.specs.Outcome.{refused as Outcome·refused, clashed as Outcome·clashed, Answers};
ghost use Rattle.auditing.specs.Audit.{clash_at, secret_in, secret_at, search_of, audit_of, audit_three, audit_five};

use clash::{Pair, first_clash, opened_pair};
use commitment::{Text, empty};
use comparable::{Records, Rejection, check_comparable, check_rounds};
use full_set::{answering, first_full};
use openings::secret;
use refusal::Refusal;
use scheme::Scheme;
use system::System;

// What an audit finds: the secret; commitment k opened with different vectors; or nothing, by the refusal's number with
// the record and the round, which are 0 but where a round is rejected.
// Three numbers and no Refusal, as document 01 has a finding.
#[derive(Clone, Copy)]
pub enum Finding {
    Secret,
    Clash(u8),
    Refused(u8, u8, u8),
}

// A finding with its arrays: the secret, and the two strings of a clash, zero where there is none.
#[derive(Clone, Copy)]
pub struct Audited {
    pub finding: Finding,
    pub secret: [u8; 96],
    pub first: Text,
    pub second: Text,
}

// A refusal, with the record and the round that it names.
#[tactic(auto, unfolding(crate::specs::Outcome::answer_of, crate::specs::Outcome::outcome_of, crate::specs::Outcome::outcome_by, slices::specs::Slices::zeros))]
fn refused(refusal: Refusal, whose: u8, round: u8) -> Audited
    ensures { Answers result (Outcome·refused (number refusal) whose round) }
{
    Audited {
        finding: Finding::Refused(u8::from(refusal), whose, round),
        secret: [0; 96],
        first: empty(),
        second: empty(),
    }
}

// s, from a round with a full set.
#[tactic(auto, unfolding(crate::specs::Audit::secret_in))]
fn secret_in(system: &System, records: &Records, r: u8) -> [u8; 96]
    ensures { result ≡ secret_in records.now.scheme system.now.bytes.now records.now.a.now records.now.b.now records.now.c.now r }
{
    match records.scheme {
        Scheme::ThreePass => {
            let zero = answering(records, r, 0);
            let one = answering(records, r, 1);
            secret(system.bytes, zero, one, r)
        }
        Scheme::FivePass => secret(system.bytes, records.a, records.b, r),
    }
}

// The secret as a finding.
#[tactic(auto, unfolding(crate::specs::Outcome::answer_of, crate::specs::Outcome::outcome_of, crate::specs::Outcome::outcome_by, crate::specs::Audit::secret_at))]
fn secret_at(system: &System, records: &Records, r: u8) -> Audited
    ensures { Answers result (secret_at records.now.scheme system.now.bytes.now records.now.a.now records.now.b.now records.now.c.now r) }
{
    Audited {
        finding: Finding::Secret,
        secret: secret_in(system, records, r),
        first: empty(),
        second: empty(),
    }
}

// A clash with its two strings.
#[tactic(auto, unfolding(crate::specs::Outcome::clashed, slices::specs::Slices::zeros))]
fn clashed(k: u8, first: Text, second: Text) -> Audited
    ensures { result ≡ Outcome·clashed k first second }
{
    Audited {
        finding: Finding::Clash(k),
        secret: [0; 96],
        first,
        second,
    }
}

// Commitment k of a round, opened in two ways.
fn clash_at(system: &System, records: &Records, r: u8, k: u8) -> Audited
    ensures { Answers result (clash_at records.now.scheme system.now.bytes.now records.now.a.now records.now.b.now records.now.c.now records.now.d.now r k) }
{
    let Pair { left, right } = opened_pair(system, records, r, k);
    clashed(k, left, right)
}

// What a search over the rounds finds.
#[tactic(auto, unfolding(crate::specs::Audit::search_of, crate::specs::Audit::finding_at))]
fn search(system: &System, records: &Records) -> Audited
    ensures { Answers result (search_of records.now.scheme system.now.bytes.now records.now.a.now records.now.b.now records.now.c.now records.now.d.now) }
{
    let Some(r) = first_full(records) else {
        return refused(Refusal::NoFullSet, 0, 0);
    };
    match first_clash(system, records, r) {
        Some(k) => clash_at(system, records, r, k),
        None => secret_at(system, records, r),
    }
}

// The audit of either scheme; scheme 3 has no fourth record, and `d` is not looked at there.
#[tactic(auto, using(crate::proofs::Answering::answers_by, crate::proofs::Outcomes::audit_refused, crate::proofs::Outcomes::audit_rejected, crate::proofs::Outcomes::audit_searched, refusal::proofs::Answers::refuses))]
fn audit(scheme: Scheme, system: &[u8], a: &[u8], b: &[u8], c: &[u8], d: &[u8]) -> Audited
    ensures { Answers result (audit_of scheme system.now a.now b.now c.now d.now) }
{
    let records = Records { scheme, a, b, c, d };
    match check_comparable(system, &records) {
        Ok(system) => match check_rounds(&system, &records) {
            Ok(()) => search(&system, &records),
            Err(Rejection { whose, round }) => refused(Refusal::Rejected, whose, round),
        },
        Err(refusal) => refused(refusal, 0, 0),
    }
}

// Audits three records of scheme 3.
#[tactic(auto, unfolding(crate::specs::Audit::audit_three))]
pub fn audit_three(system: &[u8], a: &[u8], b: &[u8], c: &[u8]) -> Audited
    ensures { Answers result (audit_three system.now a.now b.now c.now) }
{
    audit(Scheme::ThreePass, system, a, b, c, c)
}

// Audits four records of scheme 5.
#[tactic(auto, unfolding(crate::specs::Audit::audit_five))]
pub fn audit_five(system: &[u8], a: &[u8], b: &[u8], c: &[u8], d: &[u8]) -> Audited
    ensures { Answers result (audit_five system.now a.now b.now c.now d.now) }
{
    audit(Scheme::FivePass, system, a, b, c, d)
}
