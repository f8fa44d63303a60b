// The parts of a line behind a call's word and number: its output's digest, then both sessions.
use card_state::{Card, CardPhase};
use carrier_state::{Carrier, CarrierPhase};
use hex_text::append_hex;
use scheme::Scheme;
use session_state::{Phase, Verdict};
use text::Writer;

// How many digits of a digest are shown: those of its first 8 bytes.
const SHOWN: usize = 16;

// The start of an output's SHA-256.
pub fn say_digest<R: Print>(rt: &R, digest: &[u8; 32]) {
    let mut text = [0u8; 64];
    append_hex(&mut Writer::new(&mut text), digest);
    files::print(rt, b" ");
    files::print(rt, &text[..SHOWN]);
}

// Both sessions: the call due or the verdict, the count, and a letter for each part that is not zero.
pub fn end_line<R: Print>(rt: &R, card: &Card, carrier: &Carrier) {
    say_card(rt, card);
    say_carrier(rt, carrier);
}

// n for the numbers of a closed session, s for the secret, r for what is held of the round.
fn say_card<R: Print>(rt: &R, card: &Card) {
    let due = card_due(card.phase);
    let numbers = card.phase.is_closed()
        && has_numbers(card.scheme, [card.q, card.n, card.m, card.rounds]);
    let vectors = any(&card.r0) || any(&card.t0) || any(&card.e0) || any(&card.e1);
    let rhos = any(&card.rhos.rho0) || any(&card.rhos.rho1) || any(&card.rhos.rho2);
    let n = letter(numbers, "n");
    let s = letter(any(&card.s), "s");
    let r = letter(vectors || rhos, "r");
    let _ = print!(rt; " {due}{}{n}{s}{r}", card.round);
}

// n for the numbers of a closed session, v for the key, m for the round's messages.
fn say_carrier<R: Print>(rt: &R, carrier: &Carrier) {
    let due = carrier_due(carrier.phase);
    let numbers = carrier.phase.is_closed()
        && has_numbers(
            carrier.scheme,
            [carrier.q, carrier.n, carrier.m, carrier.rounds],
        );
    let messages = any(&carrier.commitments) || any(&carrier.turn) || carrier.challenge != 0;
    let n = letter(numbers, "n");
    let v = letter(any(&carrier.v), "v");
    let m = letter(messages, "m");
    let _ = println!(rt; " {due}{}{n}{v}{m}", carrier.accepted);
}

// Is a number of a session another than a closed session's, which is of the first scheme?
fn has_numbers(scheme: Scheme, numbers: [u8; 4]) -> bool {
    match scheme {
        Scheme::ThreePass => any(&numbers),
        Scheme::FivePass => true,
    }
}

fn card_due(phase: CardPhase) -> &'static str {
    match phase {
        CardPhase::Commit => "commit",
        CardPhase::AnswerAlpha => "answer",
        CardPhase::Reply => "reply",
        CardPhase::Closed(verdict) => ended(verdict),
    }
}

fn carrier_due(phase: CarrierPhase) -> &'static str {
    match phase {
        CarrierPhase::TakeCommitments => "take",
        CarrierPhase::SetAlpha => "alpha",
        CarrierPhase::TakeMiddle => "middle",
        CarrierPhase::SetChallenge => "ask",
        CarrierPhase::TakeReply => "judge",
        CarrierPhase::Closed(verdict) => ended(verdict),
    }
}

fn ended(verdict: Verdict) -> &'static str {
    match verdict {
        Verdict::None => "none",
        Verdict::Accepted => "accepted",
        Verdict::Rejected => "rejected",
    }
}

fn letter(shown: bool, letter: &'static str) -> &'static str {
    if shown { letter } else { "" }
}

// Is a byte not zero?
fn any(bytes: &[u8]) -> bool {
    bytes.iter().any(|byte| *byte != 0)
}
