// Cases of the writer.
use cases::Case;
use refusal::number_of;

// Whether the writer answers the number, and leaves what is expected where the fill was.
pub fn write_case(
    mut case: Case,
    commitments: &mut [u8],
    exchanges: &mut [u8],
    expected: &mut [u8],
    out: &mut [u8],
) -> Option<bool> {
    let numbers = case.pieces.small()?;
    let key = case.pieces.small()?;
    let commitments = case.pieces.load(commitments)?;
    let exchanges = case.pieces.load(exchanges)?;
    let expected = case.pieces.load(expected)?;
    let out = out.get_mut(..expected.len())?;
    out.fill(case.fill);
    let [scheme, q, n, m, rounds, ..] = numbers.bytes;
    let answer = record_writer::write(
        scheme,
        q,
        n,
        m,
        rounds,
        key.as_slice(),
        commitments,
        exchanges,
        out,
    );
    Some(number_of(answer) == case.number && *out == *expected)
}
