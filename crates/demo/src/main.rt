// Plays honest sessions of a card and a carrier from standard input, and prints what comes of each: the record's length and
// digest, the report on the record, and both sessions at their end.
//
// Standard input holds a system, then sessions to its end, 65,536 bytes in all at most. A session is: the scheme and N, a byte
// each; v (m); s (n); then for each round what is lent to the card, in scheme 5 also α, and the challenge. An argument, if
// there is one, names the file that the first session's record is written to, the next argument that of the second, and so on.
// A refusal ends the run: `refused`, its number, and the call. An input that is too long, has no session or ends within one is
// refused with 2.
#![tactic(auto)]

mod filing;
mod play;
mod refused;
mod terms;

ghost use Rattle.std.specs.Prelude.{◌≤◌, ◌<◌, length, IfOk};

use crate::filing::recorded;
use crate::play::Ends;
use crate::refused::Refused;
use crate::terms::Terms;
use carrier_state::CarrierPhase;
use files::read_input;
use reporting::{INPUT as ROOM, system_part};
use session_state::Verdict;
use slices::{part, zeros};
use std::rt::{Env, Files};

// Room for the messages of all rounds, whatever a round's length.
const MESSAGES: usize = 343296;

// What a system and all sessions have at most.
const INPUT: usize = 65536;

fn main(rt: HostRuntime) {
    let mut input = zeros::<ROOM>();
    let length = read_input(&rt, &mut input);
    if let Err(refused) = play_all(&rt, &input[..length]) {
        let _ = println!(rt; "{refused}");
    }
}

// Takes the system from the front of the input, and plays each session in turn. How long one is stands in its own bytes, so that
// their number is known at the end alone.
fn play_all<R: Env + Eprint + Files + Print>(rt: &R, input: &[u8]) -> Result<(), Refused> {
    let system = system_part(input);
    if input.len() <= system.len() || INPUT < input.len() {
        return Err(Refused::input());
    }
    let mut number = 1;
    let mut rest = &input[system.len()..];
    'sessions: while !rest.is_empty() {
        rest = session(rt, system, rest, number)?;
        number += 1;
    }
    Ok(())
}

// Plays the session at the front of the bytes, prints what comes of it, and answers what is behind it.
fn session<'a, R: Env + Eprint + Files + Print>(
    rt: &R,
    system: &[u8],
    bytes: &'a [u8],
    number: usize,
) -> Result<&'a [u8], Refused>
    requires { length system.now ≤ 65536 }
    ensures { IfOk result (λ s. length s.now < length bytes.now) }
{
    let t = Terms::of(system, bytes);
    let _ = println!(rt; "scheme {}, {} rounds", t.scheme, t.rounds);
    let Some((bytes, rest)) = bytes.split_at_checked(t.session_length()) else {
        return Err(Refused::input());
    };
    acted(rt, t, bytes, number)?;
    Ok(rest)
}

// Plays the session that the bytes are, and files it. The buffers stand in front of all else: a function clears its locals when it is
// entered, and would clear once more what is made behind a call or a `?`.
fn acted<R: Env + Eprint + Files + Print>(
    rt: &R,
    t: Terms,
    bytes: &[u8],
    number: usize,
) -> Result<(), Refused> {
    let mut commitments = zeros::<MESSAGES>();
    let mut exchanges = zeros::<MESSAGES>();
    let m = usize::from(t.m);
    let n = usize::from(t.n);
    let v = part(bytes, 2, m);
    let s = part(bytes, 2 + m, n);
    let rounds = part(bytes, 2 + m + n, bytes.len());
    let mut ends = Ends::open(t, v, s)?;
    ends.play(t, rounds, &mut commitments, &mut exchanges)?;
    recorded(rt, t, v, &commitments, &exchanges, number)?;
    say_ends(rt, &ends);
    Ok(())
}

// `card closed`, and `carrier closed, accepted, rounds accepted: 2`
fn say_ends<R: Print>(rt: &R, ends: &Ends) {
    let card = match ends.card.phase {
        card_state::CardPhase::Closed(_) => "closed",
        _ => "open",
    };
    let carrier = match ends.carrier.phase {
        CarrierPhase::Closed(Verdict::None) => "closed, no verdict",
        CarrierPhase::Closed(Verdict::Accepted) => "closed, accepted",
        CarrierPhase::Closed(Verdict::Rejected) => "closed, rejected",
        _ => "open",
    };
    let _ = println!(rt; "card {card}");
    let _ = println!(rt;
        "carrier {carrier}, rounds accepted: {}",
        ends.carrier.accepted
    );
}
