// Plays the stored calls of both ends' sessions, one card and one carrier kept from call to call, and prints a line for each.
// The lines are described in reference/README.md.
#![tactic(auto)]

mod card_calls;
mod carrier_calls;
mod line;

use crate::card_calls::card_call;
use crate::carrier_calls::carrier_call;
use crate::line::end_line;
use card_state::Card;
use carrier_state::Carrier;
use cases::{Case, FILE, Kind, SYSTEM, run_cases};
use files::read_input;
use slices::zeros;

fn main(rt: HostRuntime) {
    let mut file = zeros::<FILE>();
    let length = read_input(&rt, &mut file);
    let mut system = zeros::<SYSTEM>();
    run(&rt, &file[..length], &mut system);
}

// Makes each call in turn. Both sessions are closed at first, as after a refused opening.
fn run<R: Print>(rt: &R, file: &[u8], system: &mut [u8]) {
    let mut card = card::open(b"", 0, 0, b"", b"").session;
    let mut carrier = carrier::open(b"", 0, 0, b"").session;
    run_cases(rt, file, |case| {
        make_call(rt, case, system, &mut card, &mut carrier)
    });
}

// Makes a call, and says how both sessions are after it. A malformed case makes none and has no line.
fn make_call<R: Print>(
    rt: &R,
    case: Case,
    system: &mut [u8],
    card: &mut Card,
    carrier: &mut Carrier,
) -> Option<bool> {
    let agrees = match case.kind {
        Kind::CardOpen | Kind::CardCommit | Kind::CardAnswer | Kind::CardReply => {
            card_call(rt, case, system, card)?
        }
        _ => carrier_call(rt, case, system, carrier)?,
    };
    end_line(rt, card, carrier);
    Some(agrees)
}
