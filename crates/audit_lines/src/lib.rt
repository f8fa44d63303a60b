// The text of the audit program as bytes in a lent buffer of 2,048, which holds the longest, and how long it is.
//
// Nothing here refuses: whoever calls lends that buffer.
#![tactic(auto)]

ghost use Rattle.std.specs.Prelude.{◌≡◌, ◌+◌, ◌*◌, ◌≤◌, length, take};
ghost use Rattle.slices.specs.Slices.{placed};
ghost use Rattle.text.specs.Writer.{Appends};
ghost use Rattle.system.specs.System.{n_of};
ghost use Rattle.commitment.specs.Commitment.{longest};
ghost use Rattle.commitment.specs.Texts.{content};
ghost use Rattle.auditing.specs.Outcome.{outcome_of};
ghost use Rattle.audit_lines.specs.AuditLines.{hex_line, clash_lines, rejected_line, refusal_line, audit_text, three_text, five_text};
ghost use Rattle.audit_lines.specs.Files.{bytes_of};

use auditing::{Audited, Finding, audit_five, audit_three};
use commitment::Text;
use hex_text::append_hex;
use report_lines::refused_line;
use slices::{byte_at, part};
use text::Writer;

// Puts a line of a word and bytes.
#[tactic(auto, using(text::proofs::Appending::pieces), unfolding(crate::specs::AuditLines::hex_line, text::specs::Text::line_feed))]
fn hex_line(text: &mut Writer, word: &[u8], s: &[u8])
    requires { text.old.written + length word.now + 2 * length s.now + 1 ≤ length text.old.buffer.now }
    ensures puts { Appends text.old text.new (hex_line word.now s.now) }
    ensures size { text.new.written ≡ text.old.written + length word.now + 2 * length s.now + 1 }
{
    text.append(word);
    append_hex(text, s);
    text.append(b"\n");
}

// `clash 1`, then a line for each string.
#[tactic(auto, using(text::proofs::Appending::pieces), unfolding(crate::specs::AuditLines::clash_lines, crate::specs::AuditLines::clash_word, crate::specs::AuditLines::first_word, crate::specs::AuditLines::second_word, text::specs::Text::line_feed))]
fn clash_lines(text: &mut Writer, k: u8, first: &[u8], second: &[u8])
    requires { (length first.now ≤ longest) × (length second.now ≤ longest) × (text.old.written + 2048 ≤ length text.old.buffer.now) }
    ensures { Appends text.old text.new (clash_lines k first.now second.now) }
{
    text.append_number(b"clash ", k);
    text.append(b"\n");
    hex_line(text, b"first ", first);
    hex_line(text, b"second ", second);
}

// `refused 8 record 2 round 1`
#[tactic(auto, using(text::proofs::Appending::pieces), unfolding(crate::specs::AuditLines::rejected_line, crate::specs::AuditLines::rejected_word, crate::specs::AuditLines::in_round_word, report_lines::specs::ReportLines::round_word, text::specs::Text::line_feed))]
fn rejected_line(text: &mut Writer, whose: u8, round: u8)
    requires { text.old.written + 32 ≤ length text.old.buffer.now }
    ensures { Appends text.old text.new (rejected_line whose round) }
{
    text.append_numbers(b"refused 8 record ", whose, b" round ", round);
    text.append(b"\n");
}

// The line of a refusal; a number, as `Finding::Refused` has it.
#[tactic(auto, unfolding(crate::specs::AuditLines::refusal_line))]
fn refusal_line(text: &mut Writer, number: u8, whose: u8, round: u8)
    requires { text.old.written + 32 ≤ length text.old.buffer.now }
    ensures { Appends text.old text.new (refusal_line number whose round) }
{
    if number == 8 {
        rejected_line(text, whose, round);
    } else {
        refused_line(text, number);
    }
}

// Puts the text of what an audit answers, where the system's n is given.
#[tactic(auto, using(crate::proofs::Parts::part_short), unfolding(auditing::specs::Outcome::outcome_of, auditing::specs::Outcome::outcome_by, crate::specs::AuditLines::audit_text, crate::specs::AuditLines::secret_word))]
fn append_audit(text: &mut Writer, audited: Audited, n: u8)
    requires { text.old.written + 2048 ≤ length text.old.buffer.now }
    ensures { Appends text.old text.new (audit_text n (outcome_of audited)) }
{
    let Audited {
        finding,
        secret,
        first,
        second,
    } = audited;
    match finding {
        Finding::Secret => hex_line(text, b"secret ", part(&secret, 0, usize::from(n))),
        Finding::Clash(k) => both_strings(text, k, first, second),
        Finding::Refused(number, whose, round) => refusal_line(text, number, whose, round),
    }
}

// The lines of a clash, each string as long as it says.
#[tactic(auto, using(crate::proofs::Parts::part_short))]
fn both_strings(text: &mut Writer, k: u8, first: Text, second: Text)
    requires { text.old.written + 2048 ≤ length text.old.buffer.now }
    ensures { Appends text.old text.new (clash_lines k (content first) (content second)) }
{
    clash_lines(
        text,
        k,
        part(&first.bytes, 0, first.len),
        part(&second.bytes, 0, second.len),
    );
}

// The text of what an audit answers, where the system's n is given.
pub fn audit_text(audited: Audited, n: u8, text: &mut [u8]) -> usize
    requires { length text.old ≡ 2048 }
    ensures { (text.new ≡ placed text.old 0 (audit_text n (outcome_of audited))) × (result ≡ length (audit_text n (outcome_of audited)))
        × (result ≤ 2048) }
{
    let mut writer = Writer::new(text);
    append_audit(&mut writer, audited, n);
    writer.written()
}

// A file at the front of a buffer. Its length comes beside the buffer, so that the promise says what of the file is audited.
#[derive(Clone, Copy)]
pub struct File<'a> {
    pub buffer: &'a [u8],
    pub length: usize,
}

impl<'a> File<'a> {
    // What there is of it.
    fn bytes(self) -> &'a [u8]
        ensures { result.now ≡ bytes_of self.entry }
    {
        part(self.buffer, 0, self.length)
    }
}

// The n of a system's file, of any bytes: what is refused is printed too.
#[tactic(auto, unfolding(system::specs::System::n_of))]
fn n_in(system: File) -> u8
    ensures { result ≡ n_of (bytes_of system.entry) }
{
    byte_at(system.bytes(), 1)
}

// The text of an audit of scheme 3, of files that lie at the front of buffers. Any lengths are taken: what there is of a file is
// audited.
#[tactic(auto, unfolding(crate::specs::AuditLines::three_text))]
pub fn three_text(system: File, a: File, b: File, c: File, text: &mut [u8; 2048]) -> usize
    ensures { (text.new ≡ placed text.old 0
        (three_text (bytes_of system.entry) (bytes_of a.entry) (bytes_of b.entry) (bytes_of c.entry)))
        × (result ≡ length
        (three_text (bytes_of system.entry) (bytes_of a.entry) (bytes_of b.entry) (bytes_of c.entry))) }
{
    let audited = audit_three(system.bytes(), a.bytes(), b.bytes(), c.bytes());
    audit_text(audited, n_in(system), text)
}

// The same of scheme 5.
#[tactic(auto, unfolding(crate::specs::AuditLines::five_text))]
pub fn five_text(system: File, a: File, b: File, c: File, d: File, text: &mut [u8; 2048]) -> usize
    ensures { (text.new ≡ placed text.old 0
        (five_text (bytes_of system.entry) (bytes_of a.entry) (bytes_of b.entry) (bytes_of c.entry) (bytes_of d.entry)))
        × (result ≡ length
        (five_text (bytes_of system.entry) (bytes_of a.entry) (bytes_of b.entry) (bytes_of c.entry) (bytes_of d.entry))) }
{
    let audited = audit_five(system.bytes(), a.bytes(), b.bytes(), c.bytes(), d.bytes());
    audit_text(audited, n_in(system), text)
}
