// Cases of SHA-256.
#![tactic(auto)]

use cases::{Case, Kind};
use refusal::number_of;

// Runs a case, whose message the buffer has room for, and answers whether it agrees. A case of another kind is malformed.
pub fn sha256_case(mut case: Case, buffer: &mut [u8]) -> Option<bool> {
    if case.kind != Kind::Digest {
        return None;
    }
    let message = case.pieces.load(buffer)?;
    let expected = case.pieces.small()?;
    let mut out = [case.fill; 512];
    let answer = sha256::digest(message, &mut out[..expected.length]);
    Some(case.agrees(number_of(answer), &expected, &out))
}
