// The card's calls: each prints its word, its number and its output's digest.
use crate::line::say_digest;
use card_state::Card;
use cases::{Case, Kind, Small};
use refusal::number_of;
use session_state::Answered;

// Makes the call, whose system, if it has one, the buffer has room for, and answers whether it agrees. A case of another kind is
// malformed; that leaves the session.
pub fn card_call<R: Print>(rt: &R, case: Case, buffer: &mut [u8], card: &mut Card) -> Option<bool> {
    match case.kind {
        Kind::CardOpen => open_call(rt, case, buffer, card),
        Kind::CardCommit => commit_call(rt, case, buffer, card),
        Kind::CardAnswer => answer_call(rt, case, buffer, card),
        Kind::CardReply => reply_call(rt, case, card),
        _ => None,
    }
}

// The start of the line of an answer with an output. The session is the one that the answer hands back.
fn put_out<R: Print>(
    rt: &R,
    word: &str,
    case: Case,
    expected: &Small,
    answered: Answered<Card, ()>,
    out: &[u8; 512],
    card: &mut Card,
) -> bool {
    let number = number_of(answered.answer);
    *card = answered.session;
    let _ = print!(rt; "{word} {number}");
    let digest = sha256::hash(&out[..expected.length]);
    say_digest(rt, &digest);
    case.agrees(number, expected, out)
}

fn open_call<R: Print>(rt: &R, mut case: Case, buffer: &mut [u8], card: &mut Card) -> Option<bool> {
    let system = case.pieces.load(buffer)?;
    let scheme = case.pieces.byte()?;
    let rounds = case.pieces.byte()?;
    let v = case.pieces.small()?;
    let s = case.pieces.small()?;
    let opened = card::open(system, scheme, rounds, v.as_slice(), s.as_slice());
    let number = number_of(opened.answer);
    *card = opened.session;
    let _ = print!(rt; "card {number}");
    Some(number == case.number)
}

fn commit_call<R: Print>(
    rt: &R,
    mut case: Case,
    buffer: &mut [u8],
    card: &mut Card,
) -> Option<bool> {
    let system = case.pieces.load(buffer)?;
    let lent = case.pieces.small()?;
    let expected = case.pieces.small()?;
    let mut out = [case.fill; 512];
    let answered = card::commit(*card, system, lent.as_slice(), &mut out[..expected.length]);
    Some(put_out(rt, "commit", case, &expected, answered, &out, card))
}

fn answer_call<R: Print>(
    rt: &R,
    mut case: Case,
    buffer: &mut [u8],
    card: &mut Card,
) -> Option<bool> {
    let system = case.pieces.load(buffer)?;
    let alpha = case.pieces.byte()?;
    let expected = case.pieces.small()?;
    let mut out = [case.fill; 512];
    let answered = card::answer_alpha(*card, system, alpha, &mut out[..expected.length]);
    Some(put_out(rt, "answer", case, &expected, answered, &out, card))
}

fn reply_call<R: Print>(rt: &R, mut case: Case, card: &mut Card) -> Option<bool> {
    let challenge = case.pieces.byte()?;
    let expected = case.pieces.small()?;
    let mut out = [case.fill; 512];
    let answered = card::reply(*card, challenge, &mut out[..expected.length]);
    Some(put_out(rt, "reply", case, &expected, answered, &out, card))
}
