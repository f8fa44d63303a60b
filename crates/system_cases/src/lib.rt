// Cases of the system's check, of F and of G.
#![tactic(auto)]

use cases::{Case, Kind};
use refusal::number_of;

// Runs a case, whose system the buffer has room for, and answers whether it agrees. A case of another kind is malformed.
pub fn system_case(mut case: Case, buffer: &mut [u8]) -> Option<bool> {
    let system = case.pieces.load(buffer)?;
    match case.kind {
        Kind::CheckSystem => Some(number_of(system::check(system)) == case.number),
        Kind::Evaluate => evaluate_case(case, system),
        Kind::Polar => polar_case(case, system),
        _ => None,
    }
}

// The case's pieces are those behind the system, here and below.
fn evaluate_case(mut case: Case, system: &[u8]) -> Option<bool> {
    let x = case.pieces.small()?;
    let expected = case.pieces.small()?;
    let mut out = [case.fill; 512];
    let answer = evaluation::evaluate(system, x.as_slice(), &mut out[..expected.length]);
    Some(case.agrees(number_of(answer), &expected, &out))
}

fn polar_case(mut case: Case, system: &[u8]) -> Option<bool> {
    let x = case.pieces.small()?;
    let y = case.pieces.small()?;
    let expected = case.pieces.small()?;
    let mut out = [case.fill; 512];
    let answer = evaluation::polar(
        system,
        x.as_slice(),
        y.as_slice(),
        &mut out[..expected.length],
    );
    Some(case.agrees(number_of(answer), &expected, &out))
}
