// The writer of records.
ghost use Rattle.std.specs.Prelude.{◌≡◌, length};
ghost use Rattle.refusal.specs.Refusal.{kept};
ghost use Rattle.record_form.specs.Record.{header_of, written};
ghost use Rattle.record_writer.specs.Writer.{fields_of, write_refusal};

use refusal::number_of;

// Writes a record.
#[unsafe(no_mangle)]
pub extern "C" fn bench_write<'a>(
    scheme: u8,
    q: u8,
    n: u8,
    m: u8,
    rounds: u8,
    key: &'a [u8],
    commitments: &'a [u8],
    exchanges: &'a [u8],
    out: &mut [u8],
) -> u8
    ensures { (result ≡ write_refusal scheme (fields_of (header_of scheme q n m rounds) key.now commitments.now
        exchanges.now) (length out.old))
        × (out.new ≡ kept result out.old (written
        (fields_of (header_of scheme q n m rounds) key.now commitments.now exchanges.now))) }
{
    number_of(record_writer::write(scheme, q, n, m, rounds, key, commitments, exchanges, out))
}
