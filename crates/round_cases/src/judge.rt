// Cases of the judgement of a round.
use crate::card::vector_of;
use cases::Case;
use commitment::Domain;
use scheme::Scheme;
use system::System;

// Its answer is 1 for accept and 0 for reject.
pub fn judge_case(mut case: Case, system: &System) -> Option<bool> {
    let scheme = case.pieces.byte()?;
    let v = case.pieces.small()?;
    let commitments = case.pieces.small()?;
    let turn = case.pieces.small()?;
    let challenge = case.pieces.byte()?;
    let reply = case.pieces.small()?;
    let Ok(scheme) = Scheme::try_from(scheme) else {
        return Some(false);
    };
    let accepted = exchange::judge(
        system,
        Domain { scheme },
        vector_of(&v),
        &commitments.bytes,
        &turn.bytes,
        challenge,
        &reply.bytes,
    );
    Some(u8::from(accepted) == case.number)
}
