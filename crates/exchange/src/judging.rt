// The judgement of a round.
ghost use Rattle.std.specs.Prelude.{◌≡◌};
ghost use Rattle.exchange.specs.Messages.{accepts};

use crate::read::{read_middle, read_reply_five, read_reply_three};
use commitment::Domain;
use judgement::{accepts_five, accepts_three};
use scheme::Scheme;
use slices::byte_at;
use system::System;

// Whether a round of the domain's scheme is accepted; `turn` is α, t1 and e1 of five passes, and is not looked at in three.
#[tactic(auto, unfolding(crate::specs::Messages::accepts, crate::specs::Messages::openings))]
pub fn judge(
    system: &System,
    d: Domain,
    v: [u8; 96],
    commitments: &[u8],
    turn: &[u8],
    challenge: u8,
    reply: &[u8],
) -> bool
    ensures { result ≡ accepts system.now.bytes.now d v commitments.now turn.now challenge reply.now }
{
    let n = system.n();
    let m = system.m();
    match d.scheme {
        Scheme::ThreePass => {
            let sent = read_reply_three(reply, n, m);
            accepts_three(system, d, v, commitments, challenge, sent)
        }
        Scheme::FivePass => {
            let alpha = byte_at(turn, 0);
            let middle = read_middle(turn, n, m);
            let sent = read_reply_five(reply, n);
            accepts_five(system, d, v, commitments, alpha, middle, challenge, sent)
        }
    }
}
