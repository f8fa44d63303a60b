// Cases of the writer.
use cases::Case;
use refusal::number_of;
use slices::number;

// Whether the writer answers the number, and leaves what is expected where the fill was.
pub fn write_case(
    mut case: Case,
    labels: &mut [u8],
    keys: &mut [u8],
    expected: &mut [u8],
    out: &mut [u8],
) -> Option<bool> {
    let count = case.pieces.small()?;
    let numbers = case.pieces.small()?;
    let labels = case.pieces.load(labels)?;
    let keys = case.pieces.load(keys)?;
    let expected = case.pieces.load(expected)?;
    let out = out.get_mut(..expected.len())?;
    out.fill(case.fill);
    let [q, n, m, ..] = numbers.bytes;
    let answer = book_writer::write(number(count.as_slice()), q, n, m, labels, keys, out);
    Some(number_of(answer) == case.number && *out == *expected)
}
