// The report: from the bytes of a system and a record to the text that says how each round was judged.
//
// The entry `report` takes any bytes. It writes the text to the front of a lent buffer of 8,192 bytes, which holds the longest
// text, and answers the text's length; a buffer of another length stays as it is, and the answer is 0.
#![tactic(auto)]

ghost use Rattle.std.specs.Prelude.{◌≡◌, ◌+◌, ◌≤◌, length, IfOk};
ghost use Rattle.text.specs.Writer.{Appends};
ghost use Rattle.refusal.specs.Refusal.{number_of};
ghost use Rattle.reporting.specs.Report.{system_part, record_part, report_refusal, judged_text, report_text, report_length, report_out};

use record::header_of;
use refusal::{Refusal, require};
use report_lines::{refused_line, round_line, totals_line, verdict_line};
use slices::{byte_at, part};
use system::{System, system_length};
use text::Writer;
use transcript::{accepts_round, checked_system, round_challenge};

// Room for the longest input and one byte more, by which an input that is too long shows.
pub const INPUT: usize = 65537;

// Room for the longest text.
pub const TEXT: usize = 8192;

// The system at the front of the input.
#[tactic(auto, unfolding(crate::specs::Report::system_part))]
pub fn system_part(input: &[u8]) -> &[u8]
    ensures { result.now ≡ system_part input.now }
{
    part(
        input,
        0,
        system_length(byte_at(input, 1), byte_at(input, 2)),
    )
}

// What stands behind it.
#[tactic(auto, unfolding(crate::specs::Report::record_part))]
fn record_part(input: &[u8]) -> &[u8]
    ensures { result.now ≡ record_part input.now }
{
    part(
        input,
        system_length(byte_at(input, 1), byte_at(input, 2)),
        input.len(),
    )
}

// The system of an input, all of which is checked.
#[tactic(auto, using(refusal::proofs::Answers::chain), unfolding(crate::specs::Report::report_refusal))]
fn checked_input(input: &[u8]) -> Result<System, Refusal>
    ensures refusal { number_of result ≡ report_refusal input.now }
    ensures bytes { IfOk result (λ system. system.bytes.now ≡ system_part input.now) }
{
    require(input.len() <= 65536, Refusal::Length)?;
    checked_system(system_part(input), record_part(input))
}

// Judges every round: a line for each, then the verdict, then how many are accepted and how many rejected.
#[tactic(auto, using(text::proofs::Appending::pieces, crate::proofs::Lines::rounds), unfolding(crate::specs::Report::judged_text))]
fn judged(text: &mut Writer, system: &System, bytes: &[u8])
    requires { text.old.written + 8192 ≤ length text.old.buffer.now }
    ensures { Appends text.old text.new (judged_text system.now.bytes.now bytes.now) }
{
    let rounds = header_of(bytes).rounds;
    let mut accepted = 0;
    for r in 0..rounds {
        let is_accepted = accepts_round(system, bytes, r);
        round_line(text, r + 1, round_challenge(bytes, r), is_accepted);
        accepted += u8::from(is_accepted);
    }
    verdict_line(text, accepted, rounds);
    totals_line(text, accepted, rounds - accepted);
}

// Puts the report on an input.
#[tactic(auto, using(refusal::proofs::Answers::refuses), unfolding(crate::specs::Report::report_text))]
fn append_report(text: &mut Writer, input: &[u8])
    requires { text.old.written + 8192 ≤ length text.old.buffer.now }
    ensures { Appends text.old text.new (report_text input.now) }
{
    match checked_input(input) {
        Ok(system) => judged(text, &system, record_part(input)),
        Err(refusal) => refused_line(text, u8::from(refusal)),
    }
}

// Writes the report on an input, and answers its length; 0 and no Option, for the C entry answers the same.
#[tactic(auto, unfolding(crate::specs::Report::report_length, crate::specs::Report::report_out))]
pub fn report(input: &[u8], text: &mut [u8]) -> usize
    ensures { (result ≡ report_length input.now (length text.old))
        × (text.new ≡ report_out input.now text.old) × (result ≤ length text.old) }
{
    if text.len() != TEXT {
        return 0;
    }
    let mut writer = Writer::new(text);
    append_report(&mut writer, input);
    writer.written()
}
