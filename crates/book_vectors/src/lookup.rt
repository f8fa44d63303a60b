// Cases of the lookup: a key of 96 bytes.
use cases::Case;

pub fn lookup_case(mut case: Case, buffer: &mut [u8]) -> Option<bool> {
    let book = case.pieces.load(buffer)?;
    let label = case.pieces.small()?;
    let expected = case.pieces.small()?;
    let mut out = [case.fill; 512];
    let number = capi_books::lookup_key(book, label.as_slice(), &mut out[..expected.length]);
    Some(case.agrees(number, &expected, &out))
}
