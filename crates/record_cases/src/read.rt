// Cases of the reader: its answer as 30 bytes, the header, then offset and length of each body.
use cases::Case;
use record_form::{Body, Header, Layout};
use slices::{put, word};

pub fn read_case(mut case: Case, buffer: &mut [u8]) -> Option<bool> {
    let bytes = case.pieces.load(buffer)?;
    let expected = case.pieces.small()?;
    let (number, answer) = match record::read(bytes) {
        Ok(layout) => (0, layout_bytes(layout)),
        Err(refusal) => (u8::from(refusal), [case.fill; 30]),
    };
    Some(number == case.number && expected.as_slice() == answer.as_slice())
}

fn layout_bytes(layout: Layout) -> [u8; 30] {
    let Header {
        scheme,
        q,
        n,
        m,
        rounds,
    } = layout.header;
    let numbers = [layout.edition, u8::from(scheme), q, n, m, rounds];
    let mut bytes = [0; 30];
    put(&mut bytes, 0, &numbers);
    put(&mut bytes, 6, &entry(layout.key));
    put(&mut bytes, 14, &entry(layout.commitments));
    put(&mut bytes, 22, &entry(layout.exchanges));
    bytes
}

// A body's offset and length, laid out here once more: the record's own entries are what is tested.
fn entry(body: Body) -> [u8; 8] {
    let mut bytes = [0; 8];
    put(&mut bytes, 0, &word(body.offset));
    put(&mut bytes, 4, &word(body.length));
    bytes
}
