// Cases of the reader: the book's first seven bytes.
use cases::Case;
use refusal::number_of;

pub fn read_case(mut case: Case, buffer: &mut [u8]) -> Option<bool> {
    let book = case.pieces.load(buffer)?;
    let expected = case.pieces.small()?;
    let mut out = [case.fill; 512];
    let answer = capi_books::read_fields(book, &mut out[..expected.length]);
    Some(case.agrees(number_of(answer), &expected, &out))
}
