// The writer of session records.
//
// The entry `write` takes scheme, q, n, m and N as bytes. Where it refuses, the output is what it was: 1 for a value of the
// header, 2 for a length, the output's too, 3 for an element, 4 for a challenge. It judges no round.
#![tactic(auto)]

ghost use Rattle.std.specs.Prelude.{◌≡◌, ◌+◌, length};
ghost use Rattle.refusal.specs.Refusal.{number_of, kept};
ghost use Rattle.record_form.specs.Record.{header_of, written};
ghost use Rattle.record_writer.specs.Writer.{fields_of, write_refusal};

use field::all_below;
use record_form::{Check, Header, check_exchanges};
use refusal::{Refusal, require};
use scheme::Scheme;
use slices::put;

// What a record holds: the key, and the commitments and exchanges of all rounds.
#[derive(Clone, Copy)]
struct Contents<'a> {
    header: Header,
    key: &'a [u8],
    commitments: &'a [u8],
    exchanges: &'a [u8],
}

impl<'a> Contents<'a> {
    // Refuses what is no record's, and an output of another length; the header's scheme was decoded from the byte.
    #[tactic(auto, using(refusal::proofs::Answers::chain), unfolding(crate::specs::Writer::write_refusal, record_form::specs::Record::layout_of))]
    fn check(&self, scheme: u8, out_len: usize) -> Result<(), Refusal>
        ensures { number_of result ≡ write_refusal scheme (fields_of self.now.header self.now.key.now self.now.commitments.now self.now.exchanges.now) out_len }
    {
        let h = self.header;
        Scheme::try_from(scheme)?;
        require(h.are_values(), Refusal::Value)?;
        let l = h.layout();
        require(self.key.len() == l.key.length, Refusal::Length)?;
        require(
            self.commitments.len() == l.commitments.length,
            Refusal::Length,
        )?;
        require(self.exchanges.len() == l.exchanges.length, Refusal::Length)?;
        require(out_len == h.record_length(), Refusal::Length)?;
        require(all_below(h.q, self.key), Refusal::Element)?;
        check_exchanges(Check::Elements, h, self.exchanges)?;
        check_exchanges(Check::Challenges, h, self.exchanges)
    }

    // Puts header, table and bodies, one behind the other.
    fn put(&self, out: &mut [u8])
        requires { length out.old ≡ 30 + length self.now.key.now + length self.now.commitments.now + length self.now.exchanges.now }
        ensures { out.new ≡ written (fields_of self.now.header self.now.key.now self.now.commitments.now self.now.exchanges.now) }
    {
        let h = self.header;
        let commitments_at = 30 + self.key.len();
        let exchanges_at = commitments_at + self.commitments.len();
        put(out, 0, &[1, u8::from(h.scheme), h.q, h.n, h.m, h.rounds]);
        put(out, 6, &h.table());
        put(out, 30, self.key);
        put(out, commitments_at, self.commitments);
        put(out, exchanges_at, self.exchanges);
    }
}

// Writes the record of a session: its key, and the commitments and exchanges of all its rounds.
#[tactic(auto, using(refusal::proofs::Answers::chain))]
pub fn write(
    scheme: u8,
    q: u8,
    n: u8,
    m: u8,
    rounds: u8,
    key: &[u8],
    commitments: &[u8],
    exchanges: &[u8],
    out: &mut [u8],
) -> Result<(), Refusal>
    ensures { (number_of result ≡ write_refusal scheme (fields_of (header_of scheme q n m rounds) key.now commitments.now
        exchanges.now) (length out.old))
        × (out.new ≡ kept (number_of result) out.old (written
        (fields_of (header_of scheme q n m rounds) key.now commitments.now exchanges.now))) }
{
    let contents = Contents {
        header: Header::of_bytes(scheme, q, n, m, rounds),
        key,
        commitments,
        exchanges,
    };
    contents.check(scheme, out.len())?;
    contents.put(out);
    Ok(())
}
