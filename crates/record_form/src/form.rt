// The checks of a record's form that reader and writer share.
ghost use Rattle.std.specs.Prelude.{◌≡◌};
ghost use Rattle.refusal.specs.Refusal.{number_of};
ghost use Rattle.record_form.specs.Form.{exchange_refusal, exchanges_refusal};

use crate::layout::Header;
use field::all_below;
use refusal::{Refusal, require};
use scheme::of_rounds;
use slices::{byte_at, part};

// What is looked for in an exchange: the first bad byte in file order, or bad elements alone, or a bad challenge alone.
// An enum and no closure: the definitions that the contracts cite tell the three by name.
#[derive(Clone, Copy, Debug, PartialEq, Eq)]
pub enum Check {
    FileOrder,
    Elements,
    Challenges,
}

// Refuses an exchange with a bad byte of those that are looked for.
#[tactic(auto, using(refusal::proofs::Answers::chain), unfolding(crate::specs::Form::exchange_refusal, crate::specs::Record::turn_of, crate::specs::Record::challenge_of, crate::specs::Record::reply_vectors))]
fn check_exchange(check: Check, h: Header, exchange: &[u8]) -> Result<(), Refusal>
    ensures { number_of result ≡ exchange_refusal check h exchange.now }
{
    let turn = h.scheme.turn_length(h.n, h.m);
    let vectors = h.scheme.vectors_length(h.n, h.m);
    let turn_elements = all_below(h.q, part(exchange, 0, turn));
    let challenge_value = byte_at(exchange, turn) < h.scheme.challenges();
    let reply_elements = all_below(h.q, part(exchange, turn + 1, vectors));
    match check {
        Check::FileOrder => {
            require(turn_elements, Refusal::Element)?;
            require(challenge_value, Refusal::Challenge)?;
            require(reply_elements, Refusal::Element)
        }
        Check::Elements => {
            require(turn_elements, Refusal::Element)?;
            require(reply_elements, Refusal::Element)
        }
        Check::Challenges => require(challenge_value, Refusal::Challenge),
    }
}

// Refuses the exchanges of all rounds where one is refused: as the first of those is. Put inline, what is looked for is known, and
// the other tests are left out: else the writer takes 2.1 times as long for 40 rounds of (7, 16, 15).
#[inline(always)]
pub fn check_exchanges(check: Check, h: Header, exchanges: &[u8]) -> Result<(), Refusal>
    ensures { number_of result ≡ exchanges_refusal check h exchanges.now }
{
    let each = h.scheme.exchange_length(h.n, h.m);
    for r in 0..h.rounds {
        check_exchange(check, h, part(exchanges, of_rounds(r, each), each))?;
    }
    Ok(())
}
