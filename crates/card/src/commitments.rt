// The card's commitments of a round.
ghost use Rattle.std.specs.Prelude.{◌≡◌, length};
ghost use Rattle.refusal.specs.Refusal.{number_of, kept};
ghost use Rattle.scheme.specs.declared.Scheme.TheVariants.{ThreePass, FivePass};
ghost use Rattle.scheme.specs.Scheme.{commitments_length};
ghost use Rattle.card_state.specs.Card.{commit_refusal, committed_card, sent_commitments};

use card_state::{Card, CardPhase, card_domain, card_with, check_commit};
use exchange::{read_lent, write_five_commitments, write_three_commitments};
use round::{card_three, commitments_five, commitments_three};
use scheme::Scheme;
use session_state::Answered;
use system::System;

// Three passes: writes the commitments, and keeps what is lent and e1.
#[tactic(auto, using(card_state::proofs::Steps::committed_three_lem, card_state::proofs::Steps::sent_three), unfolding(exchange::specs::Card::three_vectors, exchange::specs::Card::three_committed))]
fn commit_three(card: Card, system: &System, lent: &[u8], out: &mut [u8]) -> Card
    requires { (card.scheme ≡ ThreePass) × (length out.old ≡ commitments_length ThreePass) }
    ensures session { result ≡ committed_card card system.now.bytes.now lent.now }
    ensures out { out.new ≡ sent_commitments card system.now.bytes.now lent.now }
{
    let (n, m) = (system.n(), system.m());
    let l = read_lent(lent, n, m);
    let w = card_three(system, card.s, l.r0, l.t0, l.e0);
    write_three_commitments(commitments_three(card_domain(card), n, m, w, l.rhos), out);
    card_with(card, CardPhase::Reply, card.round, l, w.e1)
}

// Five passes: writes the commitments, and keeps what is lent.
#[tactic(auto, using(card_state::proofs::Steps::committed_five, card_state::proofs::Steps::sent_five), unfolding(exchange::specs::Card::five_committed, slices::specs::Slices::zeros))]
fn commit_five(card: Card, system: &System, lent: &[u8], out: &mut [u8]) -> Card
    requires { (card.scheme ≡ FivePass) × (length out.old ≡ commitments_length FivePass) }
    ensures session { result ≡ committed_card card system.now.bytes.now lent.now }
    ensures out { out.new ≡ sent_commitments card system.now.bytes.now lent.now }
{
    let l = read_lent(lent, system.n(), system.m());
    let d = card_domain(card);
    write_five_commitments(
        commitments_five(d, system, card.s, l.r0, l.t0, l.e0, l.rhos),
        out,
    );
    card_with(card, CardPhase::AnswerAlpha, card.round, l, [0; 96])
}

// Writes the commitments of a round to `out`, from what is lent for it.
#[tactic(auto, using(refusal::proofs::Answers::chain, card_state::proofs::Taken::commit_taken))]
pub fn commit<'a>(
    card: Card,
    system: &'a [u8],
    lent: &'a [u8],
    out: &mut [u8],
) -> Answered<Card, ()>
    ensures answer { number_of result.answer ≡ commit_refusal card system.now lent.now (length out.old) }
    ensures session { result.session ≡ kept (number_of result.answer) card (committed_card card system.now lent.now) }
    ensures out { out.new ≡ kept (number_of result.answer) out.old (sent_commitments card system.now lent.now) }
{
    match check_commit(card, system, lent, out.len()) {
        Ok(system) => {
            let committed = match card.scheme {
                Scheme::ThreePass => commit_three(card, &system, lent, out),
                Scheme::FivePass => commit_five(card, &system, lent, out),
            };
            Answered::done((), committed)
        }
        Err(refusal) => Answered::refused(refusal, card),
    }
}
