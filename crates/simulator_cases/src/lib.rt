// Cases of the simulator.
#![tactic(auto)]

use cases::{Case, Kind};
use refusal::number_of;

// Runs a case, whose system the buffer has room for, and answers whether it agrees in both outputs. A case of another kind is
// malformed.
pub fn simulator_case(mut case: Case, buffer: &mut [u8]) -> Option<bool> {
    if case.kind != Kind::Simulate {
        return None;
    }
    let system = case.pieces.load(buffer)?;
    let v = case.pieces.small()?;
    let unanswered = case.pieces.byte()?;
    let challenge = case.pieces.byte()?;
    let lent = case.pieces.small()?;
    let commitments = case.pieces.small()?;
    let reply = case.pieces.small()?;
    let mut first = [case.fill; 512];
    let mut second = [case.fill; 512];
    let answer = simulator::simulate(
        system,
        v.as_slice(),
        unanswered,
        challenge,
        lent.as_slice(),
        &mut first[..commitments.length],
        &mut second[..reply.length],
    );
    Some(case.agrees(number_of(answer), &commitments, &first) && reply.begins(&second))
}
