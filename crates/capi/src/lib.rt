// The C interface: `rt lib` makes the archive, include/canvasfox.h declares its functions.
//
// Each takes any bytes and has the equations of the entry behind it. It answers 0, or the number of the refusal, and then
// every output is what it was; the report answers its text's length, and the lookup 255 where a label is absent.
#![tactic(auto)]

mod layouts;

ghost use Rattle.std.specs.Prelude.{◌≡◌, ◌≤◌, length, take};
ghost use Rattle.refusal.specs.Refusal.{kept};
ghost use Rattle.sha256.specs.Sha256.{sha256};
ghost use Rattle.sha256.specs.Digest.{digest_refusal};
ghost use Rattle.system.specs.System.{m_of, system_refusal, F, G};
ghost use Rattle.evaluation.specs.Entry.{evaluate_refusal, polar_refusal};
ghost use Rattle.simulator.specs.Simulator.{simulate_refusal, simulated_commitments, simulated_reply};
ghost use Rattle.record_form.specs.Record.{layout_of, header_in};
ghost use Rattle.reporting.specs.Report.{report_length, report_out};
ghost use Rattle.auditing.specs.Outcome.{answer_of};
ghost use Rattle.auditing.specs.Audit.{audit_three, audit_five};
ghost use Rattle.finding_layout.specs.FindingLayout.{finding_bytes};
ghost use Rattle.book_form.specs.Book.{written};
ghost use Rattle.book_writer.specs.Writer.{front_of, fields_of, write_refusal};
ghost use Rattle.book_lookup.specs.Lookup.{lookup_of};
ghost use Rattle.capi_books.specs.Numbers.{book_fields_refusal, lookup_number};
ghost use Rattle.capi.specs.Layouts.{fields_bytes, fields_refusal, audit_refusal};

use crate::layouts::{answer, length_refusal, read_fields};
use auditing::{audit_five, audit_three};
use refusal::number_of;

// The digest of a message.
#[unsafe(no_mangle)]
pub extern "C" fn canvasfox_sha256(message: &[u8], digest: &mut [u8]) -> u8
    ensures { (result ≡ digest_refusal (length message.now) (length digest.old))
        × (digest.new ≡ kept result digest.old (sha256 message.now)) }
{
    number_of(sha256::digest(message, digest))
}

// Whether a system is well-formed.
#[unsafe(no_mangle)]
pub extern "C" fn canvasfox_system_check(system: &[u8]) -> u8
    ensures { result ≡ system_refusal system.now }
{
    number_of(system::check(system))
}

// F(x).
#[unsafe(no_mangle)]
pub extern "C" fn canvasfox_evaluate<'a>(system: &'a [u8], x: &'a [u8], out: &mut [u8]) -> u8
    ensures { (result ≡ evaluate_refusal system.now x.now (length out.old))
        × (out.new ≡ kept result out.old (take (m_of system.now) (F system.now x.now))) }
{
    number_of(evaluation::evaluate(system, x, out))
}

// G(x, y).
#[unsafe(no_mangle)]
pub extern "C" fn canvasfox_polar<'a>(
    system: &'a [u8],
    x: &'a [u8],
    y: &'a [u8],
    out: &mut [u8],
) -> u8
    ensures { (result ≡ polar_refusal system.now x.now y.now (length out.old))
        × (out.new ≡ kept result out.old (take (m_of system.now) (G system.now x.now y.now))) }
{
    number_of(evaluation::polar(system, x, y, out))
}

// A simulated round's commitments and its reply.
#[unsafe(no_mangle)]
pub extern "C" fn canvasfox_simulate<'a>(
    system: &'a [u8],
    v: &'a [u8],
    unanswered: u8,
    challenge: u8,
    lent: &'a [u8],
    commitments: &mut [u8],
    reply: &mut [u8],
) -> u8
    ensures { (result ≡ simulate_refusal system.now v.now unanswered challenge lent.now
        (length commitments.old) (length reply.old))
        × (commitments.new ≡ kept result commitments.old
        (simulated_commitments system.now v.now unanswered lent.now))
        × (reply.new ≡ kept result reply.old (simulated_reply system.now v.now unanswered challenge lent.now)) }
{
    number_of(simulator::simulate(system, v, unanswered, challenge, lent, commitments, reply))
}

// A record's header and where its bodies stand.
#[unsafe(no_mangle)]
pub extern "C" fn canvasfox_record_read(bytes: &[u8], fields: &mut [u8]) -> u8
    ensures { (result ≡ fields_refusal bytes.now (length fields.old))
        × (fields.new ≡ kept result fields.old (fields_bytes (layout_of (header_in bytes.now)))) }
{
    number_of(read_fields(bytes, fields))
}

// The text for a system and a record, to the front of 8,192 bytes; its length.
#[unsafe(no_mangle)]
pub extern "C" fn canvasfox_report(input: &[u8], text: &mut [u8]) -> usize
    ensures { (result ≡ report_length input.now (length text.old))
        × (text.new ≡ report_out input.now text.old)
        × (result ≤ length text.old) }
{
    reporting::report(input, text)
}

// The audit of three records of scheme 3.
#[unsafe(no_mangle)]
pub extern "C" fn canvasfox_audit_three<'a>(
    system: &'a [u8],
    a: &'a [u8],
    b: &'a [u8],
    c: &'a [u8],
    finding: &mut [u8],
) -> u32
    ensures { (result ≡ audit_refusal system.now (answer_of
        (audit_three system.now a.now b.now c.now)).finding (length finding.old))
        × (finding.new ≡ kept result finding.old
        (finding_bytes (answer_of (audit_three system.now a.now b.now c.now)))) }
{
    if finding.len() != 752 {
        return length_refusal(system);
    }
    answer(audit_three(system, a, b, c), finding)
}

// The audit of four records of scheme 5.
#[unsafe(no_mangle)]
pub extern "C" fn canvasfox_audit_five<'a>(
    system: &'a [u8],
    a: &'a [u8],
    b: &'a [u8],
    c: &'a [u8],
    d: &'a [u8],
    finding: &mut [u8],
) -> u32
    ensures { (result ≡ audit_refusal system.now (answer_of
        (audit_five system.now a.now b.now c.now d.now)).finding (length finding.old))
        × (finding.new ≡ kept result finding.old
        (finding_bytes (answer_of (audit_five system.now a.now b.now c.now d.now)))) }
{
    if finding.len() != 752 {
        return length_refusal(system);
    }
    answer(audit_five(system, a, b, c, d), finding)
}

// The key book of a delivery.
#[unsafe(no_mangle)]
pub extern "C" fn canvasfox_book_write<'a>(
    count: u32,
    q: u8,
    n: u8,
    m: u8,
    labels: &'a [u8],
    keys: &'a [u8],
    book: &mut [u8],
) -> u8
    ensures { (result ≡ write_refusal (fields_of (front_of count q n m) labels.now keys.now) (length book.old))
        × (book.new ≡ kept result book.old (written (fields_of (front_of count q n m) labels.now keys.now))) }
{
    number_of(book_writer::write(count, q, n, m, labels, keys, book))
}

// A book's first seven bytes.
#[unsafe(no_mangle)]
pub extern "C" fn canvasfox_book_read(book: &[u8], fields: &mut [u8]) -> u8
    ensures { (result ≡ book_fields_refusal book.now (length fields.old))
        × (fields.new ≡ kept result fields.old (take 7 book.now)) }
{
    number_of(capi_books::read_fields(book, fields))
}

// The key of the card with this label.
#[unsafe(no_mangle)]
pub extern "C" fn canvasfox_book_lookup<'a>(book: &'a [u8], label: &'a [u8], key: &mut [u8]) -> u8
    ensures { (result ≡ lookup_number book.now label.now (length key.old))
        × (key.new ≡ kept result key.old (lookup_of book.now label.now).key) }
{
    capi_books::lookup_key(book, label, key)
}
