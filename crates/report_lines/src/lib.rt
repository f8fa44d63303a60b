// The lines of the report, each put behind what was written.
//
// Nothing here refuses: whoever calls lends the room.
#![tactic(auto)]

ghost use Rattle.std.specs.Prelude.{◌≡◌, ◌++◌, ◌+◌, ◌≤◌, length};
ghost use Rattle.text.specs.Writer.{Appends};
ghost use Rattle.report_lines.specs.ReportLines.{verdict_word, round_line, verdict_line, totals_line, refused_line};

use text::Writer;

// Puts a word, and `accept` or `reject`.
#[tactic(auto, using(text::proofs::Appending::pieces), unfolding(crate::specs::ReportLines::verdict_word, crate::specs::ReportLines::accept_word, crate::specs::ReportLines::reject_word))]
fn append_verdict(text: &mut Writer, word: &[u8], accepted: bool)
    requires { text.old.written + length word.now + 6 ≤ length text.old.buffer.now }
    ensures puts { Appends text.old text.new (word.now ++ verdict_word accepted) }
    ensures most { text.new.written ≤ text.old.written + length word.now + 6 }
{
    text.append(word);
    if accepted {
        text.append(b"accept");
    } else {
        text.append(b"reject");
    }
}

// `round 1 challenge 2 accept`
#[tactic(auto, using(text::proofs::Appending::pieces), unfolding(crate::specs::ReportLines::round_line, crate::specs::ReportLines::round_word, crate::specs::ReportLines::challenge_word, crate::specs::ReportLines::space_word, text::specs::Text::line_feed))]
pub fn round_line(text: &mut Writer, round: u8, challenge: u8, accepted: bool)
    requires { text.old.written + 31 ≤ length text.old.buffer.now }
    ensures puts { Appends text.old text.new (round_line round challenge accepted) }
    ensures most { text.new.written ≤ text.old.written + 31 }
{
    text.append_numbers(b"round ", round, b" challenge ", challenge);
    append_verdict(text, b" ", accepted);
    text.append(b"\n");
}

// `verdict accept 1 of 1`
pub fn verdict_line(text: &mut Writer, accepted: u8, rounds: u8)
    requires { text.old.written + 32 ≤ length text.old.buffer.now }
    ensures puts { Appends text.old text.new (verdict_line accepted rounds) }
    ensures most { text.new.written ≤ text.old.written + 32 }
{
    append_verdict(text, b"verdict ", accepted == rounds);
    text.append_numbers(b" ", accepted, b" of ", rounds);
    text.append(b"\n");
}

// `rounds 1 accepted 0 rejected`
#[tactic(auto, using(text::proofs::Appending::pieces), unfolding(crate::specs::ReportLines::totals_line, crate::specs::ReportLines::rounds_word, crate::specs::ReportLines::accepted_word, crate::specs::ReportLines::rejected_word, text::specs::Text::line_feed))]
pub fn totals_line(text: &mut Writer, accepted: u8, rejected: u8)
    requires { text.old.written + 33 ≤ length text.old.buffer.now }
    ensures puts { Appends text.old text.new (totals_line accepted rejected) }
    ensures most { text.new.written ≤ text.old.written + 33 }
{
    text.append_numbers(b"rounds ", accepted, b" accepted ", rejected);
    text.append(b" rejected");
    text.append(b"\n");
}

// `refused 2`; a number and no `Refusal`, since an audit's finding, printed by this line too, holds document 01's numbers.
#[tactic(auto, using(text::proofs::Appending::pieces), unfolding(crate::specs::ReportLines::refused_line, crate::specs::ReportLines::refused_word, text::specs::Text::line_feed))]
pub fn refused_line(text: &mut Writer, refusal: u8)
    requires { text.old.written + 32 ≤ length text.old.buffer.now }
    ensures puts { Appends text.old text.new (refused_line refusal) }
    ensures most { text.new.written ≤ text.old.written + 32 }
{
    text.append_number(b"refused ", refusal);
    text.append(b"\n");
}
