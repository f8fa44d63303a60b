// The reader of session records.
//
// The entry `read` takes any bytes and answers the header with the offset and length of each body, or the refusal: 6 for under
// 30 bytes or another edition, 1 for a value of the header, 6 for the table or the length, then 3 for an element or 4 for a
// challenge, the first bad byte in file order. It judges no round.
#![tactic(auto)]

ghost use Rattle.std.specs.Prelude.{◌≡◌, take, drop, IfOk};
ghost use Rattle.slices.specs.Slices.{same};
ghost use Rattle.refusal.specs.Refusal.{number_of};
ghost use Rattle.record_form.specs.Record.{table as table_of, layout_of, header_in, body_in};
ghost use Rattle.record.specs.Reader.{record_refusal};

use field::all_below;
use record_form::{Body, Check, Header, Layout, check_exchanges};
use refusal::{Refusal, require};
use scheme::Scheme;
use slices::{byte_at, part};

// The values behind the edition.
#[tactic(auto, unfolding(record_form::specs::Record::header_in))]
pub fn header_of(bytes: &[u8]) -> Header
    ensures { result ≡ header_in bytes.now }
{
    Header::of_bytes(
        byte_at(bytes, 1),
        byte_at(bytes, 2),
        byte_at(bytes, 3),
        byte_at(bytes, 4),
        byte_at(bytes, 5),
    )
}

// The bytes of a body, as many as there are.
#[tactic(auto, unfolding(record_form::specs::Record::body_in))]
pub fn body_of(bytes: &[u8], body: Body) -> &[u8]
    ensures { result.now ≡ body_in body bytes.now }
{
    part(bytes, body.offset, body.length)
}

// Whether the 24 bytes of the table are those that belong to the header.
fn table_matches(bytes: &[u8], h: Header) -> bool
    ensures { result ≡ same (take 24 (drop 6 bytes.now)) (table_of h) }
{
    part(bytes, 6, 24) == &h.table()[..]
}

// Reads a record: any bytes.
#[tactic(auto, using(refusal::proofs::Answers::chain), unfolding(crate::specs::Reader::record_refusal, record_form::specs::Record::fields_in))]
pub fn read(bytes: &[u8]) -> Result<Layout, Refusal>
    ensures refusal { number_of result ≡ record_refusal bytes.now }
    ensures layout { IfOk result (λ layout. layout ≡ layout_of (header_in bytes.now)) }
{
    let h = header_of(bytes);
    require(30 <= bytes.len(), Refusal::Form)?;
    require(byte_at(bytes, 0) == 1, Refusal::Form)?;
    Scheme::try_from(byte_at(bytes, 1))?;
    require(h.are_values(), Refusal::Value)?;
    require(table_matches(bytes, h), Refusal::Form)?;
    require(bytes.len() == h.record_length(), Refusal::Form)?;
    let layout = h.layout();
    require(all_below(h.q, body_of(bytes, layout.key)), Refusal::Element)?;
    check_exchanges(Check::FileOrder, h, body_of(bytes, layout.exchanges))?;
    Ok(layout)
}
