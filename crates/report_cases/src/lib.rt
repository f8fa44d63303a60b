// Cases of the report.
#![tactic(auto)]

use cases::{Case, Kind};
use reporting::TEXT;
use slices::zeros;

// Runs a case, whose input the buffer has room for, and answers whether it agrees. A case of another kind is malformed. The text
// must have the length and the bytes expected; a report answers no number of its own.
pub fn report_case(mut case: Case, buffer: &mut [u8]) -> Option<bool> {
    if case.kind != Kind::Report {
        return None;
    }
    let input = case.pieces.load(buffer)?;
    let mut room = zeros::<TEXT>();
    let expected = case.pieces.load(&mut room)?;
    let mut text = zeros::<TEXT>();
    text.fill(case.fill);
    let length = reporting::report(input, &mut text);
    Some(case.number == 0 && length == expected.len() && text.starts_with(expected))
}
