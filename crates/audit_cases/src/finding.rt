// What an audit answers, held against the 752 bytes expected.
use auditing::{Audited, Finding};
use cases::Case;
use finding_layout::finding_bytes;

// Whether the number, 0 for a finding, and every byte of the piece are those expected.
pub fn as_expected(mut case: Case, audited: Audited) -> Option<bool> {
    let mut room = [0u8; 752];
    let expected = case.pieces.load(&mut room)?;
    let number = match audited.finding {
        Finding::Refused(number, _, _) => number,
        Finding::Secret | Finding::Clash(_) => 0,
    };
    Some(number == case.number && *expected == *finding_bytes(audited).as_slice())
}
