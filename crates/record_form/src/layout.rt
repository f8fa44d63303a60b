// Where the bodies of a record stand, and the table of contents that says so.
ghost use Rattle.std.specs.Prelude.{◌≡◌, ◌+◌, ◌≤◌, length};
ghost use Rattle.record_form.specs.Record.{header_of, layout_of, record_length, entry as entry_of, table as table_of};
ghost use Rattle.record_form.specs.Form.{are_values};

use scheme::{Scheme, is_rounds, of_rounds, scheme_of};
use slices::{put, put_both, word};
use system::are_sizes;

// The values that stand behind the edition.
#[derive(Clone, Copy, Debug, PartialEq, Eq)]
pub struct Header {
    pub scheme: Scheme,
    pub q: u8,
    pub n: u8,
    pub m: u8,
    pub rounds: u8,
}

impl Header {
    // The header of five bytes, of which the first is a scheme's.
    pub fn of_bytes(byte: u8, q: u8, n: u8, m: u8, rounds: u8) -> Header
        ensures { result ≡ header_of byte q n m rounds }
    {
        let scheme = scheme_of(byte);
        Header {
            scheme,
            q,
            n,
            m,
            rounds,
        }
    }

    // Whether q, n, m and the round count are among their values; a `Scheme` has no other values.
    #[tactic(auto, unfolding(crate::specs::Form::are_values))]
    pub fn are_values(self) -> bool
        ensures { result ≡ are_values self }
    {
        are_sizes(self.q, self.n, self.m) && is_rounds(self.rounds)
    }

    // Where the bodies stand.
    #[tactic(auto, unfolding(crate::specs::Record::layout_of, crate::specs::Record::commitments_body, crate::specs::Record::exchange_length, crate::specs::Record::exchanges_body))]
    pub fn layout(self) -> Layout
        ensures { (result ≡ layout_of self) × (result.exchanges.offset + result.exchanges.length ≤ 1000000) }
    {
        let m = usize::from(self.m);
        let commitments = of_rounds(self.rounds, self.scheme.commitments_length());
        let exchanges = of_rounds(self.rounds, self.scheme.exchange_length(self.n, self.m));
        Layout {
            edition: 1,
            header: self,
            key: Body {
                offset: 30,
                length: m,
            },
            commitments: Body {
                offset: 30 + m,
                length: commitments,
            },
            exchanges: Body {
                offset: 30 + m + commitments,
                length: exchanges,
            },
        }
    }

    // The bytes of a whole record.
    #[tactic(auto, unfolding(crate::specs::Record::layout_of, crate::specs::Record::record_length))]
    pub fn record_length(self) -> usize
        ensures { (result ≡ record_length self) × (result ≤ 1000000) }
    {
        let last = self.layout().exchanges;
        last.offset + last.length
    }

    // The table of contents.
    pub fn table(self) -> [u8; 24]
        ensures { (result ≡ table_of self) × (length result ≡ 24) }
    {
        let l = self.layout();
        let mut out = [0; 24];
        put(&mut out, 0, &l.key.entry());
        put(&mut out, 8, &l.commitments.entry());
        put(&mut out, 16, &l.exchanges.entry());
        out
    }
}

// Where a body stands.
#[derive(Clone, Copy, Debug, PartialEq, Eq)]
pub struct Body {
    pub offset: usize,
    pub length: usize,
}

impl Body {
    // Its entry in the table: offset and length.
    fn entry(self) -> [u8; 8]
        ensures { (result ≡ entry_of self) × (length result ≡ 8) }
    {
        let mut out = [0; 8];
        put_both(&mut out, &word(self.offset), &word(self.length));
        out
    }
}

// The header, and where each body stands.
#[derive(Clone, Copy, Debug, PartialEq, Eq)]
pub struct Layout {
    pub edition: u8,
    pub header: Header,
    pub key: Body,
    pub commitments: Body,
    pub exchanges: Body,
}
