// Cases of the record's reader and writer.
#![tactic(auto)]

mod read;
mod write;

use crate::read::read_case;
use crate::write::write_case;
use cases::{Case, Kind};

// Runs a case, whose pieces the buffers have room for, and answers whether it agrees. A case of another kind is malformed. The
// reader's record is expanded into the buffer for the writer's.
pub fn record_case(
    case: Case,
    commitments: &mut [u8],
    exchanges: &mut [u8],
    expected: &mut [u8],
    out: &mut [u8],
) -> Option<bool> {
    match case.kind {
        Kind::ReadRecord => read_case(case, expected),
        Kind::WriteRecord => write_case(case, commitments, exchanges, expected, out),
        _ => None,
    }
}
