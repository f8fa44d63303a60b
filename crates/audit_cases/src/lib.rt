// Cases of the audits.
#![tactic(auto)]

mod finding;

use crate::finding::as_expected;
use auditing::{audit_five, audit_three};
use cases::{Case, Kind};

// Runs a case, whose system and records the buffers have room for, and answers whether it agrees. A case of another kind is
// malformed.
pub fn audit_case(
    mut case: Case,
    system: &mut [u8],
    a: &mut [u8],
    b: &mut [u8],
    c: &mut [u8],
    d: &mut [u8],
) -> Option<bool> {
    let system = case.pieces.load(system)?;
    let a = case.pieces.load(a)?;
    let b = case.pieces.load(b)?;
    let c = case.pieces.load(c)?;
    let audited = match case.kind {
        Kind::AuditThree => audit_three(system, a, b, c),
        Kind::AuditFive => audit_five(system, a, b, c, case.pieces.load(d)?),
        _ => return None,
    };
    as_expected(case, audited)
}
