// The carrier's calls: each prints its word and its number, that of a reply also accept or reject.
use carrier::{set_alpha, set_challenge, take_commitments, take_middle};
use carrier_state::Carrier;
use cases::{Case, Kind};
use refusal::number_of;
use session_state::Answered;

// Makes the call, whose system, if it has one, the buffer has room for, and answers whether it agrees. A case of another kind is
// malformed; that leaves the session.
pub fn carrier_call<R: Print>(
    rt: &R,
    case: Case,
    buffer: &mut [u8],
    carrier: &mut Carrier,
) -> Option<bool> {
    match case.kind {
        Kind::CarrierOpen => open_call(rt, case, buffer, carrier),
        Kind::CarrierJudge => judge_call(rt, case, buffer, carrier),
        Kind::CarrierTake | Kind::CarrierAlpha | Kind::CarrierMiddle | Kind::CarrierAsk =>
            message_call(rt, case, carrier),
        _ => None,
    }
}

// The start of the line of an answer. The session is the one that the answer hands back.
fn said<R: Print>(
    rt: &R,
    word: &str,
    case: Case,
    answered: Answered<Carrier, ()>,
    carrier: &mut Carrier,
) -> bool {
    let number = number_of(answered.answer);
    *carrier = answered.session;
    let _ = print!(rt; "{word} {number}");
    number == case.number
}

fn open_call<R: Print>(
    rt: &R,
    mut case: Case,
    buffer: &mut [u8],
    carrier: &mut Carrier,
) -> Option<bool> {
    let system = case.pieces.load(buffer)?;
    let scheme = case.pieces.byte()?;
    let rounds = case.pieces.byte()?;
    let v = case.pieces.small()?;
    let answered = carrier::open(system, scheme, rounds, v.as_slice());
    Some(said(rt, "carrier", case, answered, carrier))
}

// The calls with one message; its first byte is α or the challenge.
fn message_call<R: Print>(rt: &R, mut case: Case, carrier: &mut Carrier) -> Option<bool> {
    let message = case.pieces.small()?;
    let byte = message.bytes[0];
    let old = *carrier;
    let (word, answered) = match case.kind {
        Kind::CarrierTake => ("take", take_commitments(old, message.as_slice())),
        Kind::CarrierAlpha => ("alpha", set_alpha(old, byte)),
        Kind::CarrierMiddle => ("middle", take_middle(old, message.as_slice())),
        Kind::CarrierAsk => ("ask", set_challenge(old, byte)),
        _ => return None,
    };
    Some(said(rt, word, case, answered, carrier))
}

// Prints accept or reject too, which the case has as a byte, 1 or 0, and its fill where the call is refused.
fn judge_call<R: Print>(
    rt: &R,
    mut case: Case,
    buffer: &mut [u8],
    carrier: &mut Carrier,
) -> Option<bool> {
    let system = case.pieces.load(buffer)?;
    let reply = case.pieces.small()?;
    let expected = case.pieces.byte()?;
    let judged = carrier::take_reply(*carrier, system, reply.as_slice());
    let number = number_of(judged.answer);
    *carrier = judged.session;
    let (verdict, byte) = match judged.answer {
        Ok(true) => (" accept", 1),
        Ok(false) => (" reject", 0),
        Err(_) => ("", case.fill),
    };
    let _ = print!(rt; "judge {number}{verdict}");
    Some(number == case.number && expected == byte)
}
