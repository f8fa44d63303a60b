// Cases of the rounds: the card's calls and the judgement.
#![tactic(auto)]

mod card;
mod compare;
mod judge;

use crate::card::{answer_case, commit_case, reply_case};
use crate::judge::judge_case;
use cases::{Case, Kind};
use system::System;

// Runs a case, whose system the buffer has room for, and answers whether it agrees. A case of another kind is malformed, and so
// is one whose system is not well-formed.
pub fn round_case(mut case: Case, buffer: &mut [u8]) -> Option<bool> {
    let bytes = case.pieces.load(buffer)?;
    let system = System::new(bytes).ok()?;
    // The case's pieces are those behind the system, here and below.
    match case.kind {
        Kind::Commit => commit_case(case, &system),
        Kind::Answer => answer_case(case, &system),
        Kind::Reply => reply_case(case, &system),
        Kind::Judge => judge_case(case, &system),
        _ => None,
    }
}
