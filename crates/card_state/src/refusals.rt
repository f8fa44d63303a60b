// The refusals of the card's calls, in document 01's order: 11, 10; the system's, 7; 1, 2, 3, 4, 5. A call that is lent a system has it
// back as one that was checked.
ghost use Rattle.std.specs.Prelude.{◌≡◌, IfOk};
ghost use Rattle.refusal.specs.Refusal.{number_of};
ghost use Rattle.card_state.specs.Card.{open_form, open_refusal, commit_refusal, alpha_refusal, reply_refusal};

use crate::session::{Card, CardPhase};
use field::{all_below, from_slice};
use polynomials::f;
use refusal::{Refusal, require};
use scheme::{Scheme, is_rounds};
use session_state::require_due;
use slices::part;
use system::{System, are_sizes};

// All refusals of an opening but 5.
#[tactic(auto, using(refusal::proofs::Answers::chain), unfolding(crate::specs::Card::open_form))]
fn check_open_form<'a>(
    system: &'a [u8],
    scheme: u8,
    rounds: u8,
    v: &'a [u8],
    s: &'a [u8],
) -> Result<System<'a>, Refusal>
    ensures refusal { number_of result ≡ open_form system.now scheme rounds v.now s.now }
    ensures system { IfOk result (λ good. good.bytes.now ≡ system.now) }
{
    let system = System::new(system)?;
    Scheme::try_from(scheme)?;
    require(is_rounds(rounds), Refusal::Value)?;
    require(v.len() == usize::from(system.m()), Refusal::Length)?;
    require(s.len() == usize::from(system.n()), Refusal::Length)?;
    require(all_below(system.q(), v), Refusal::Element)?;
    require(all_below(system.q(), s), Refusal::Element)?;
    Ok(system)
}

// What `open` refuses: F(s) is formed only where nothing else is wrong.
#[tactic(auto, using(refusal::proofs::Answers::chain, slices::proofs::Sameness::pointwise_same), unfolding(crate::specs::Card::open_refusal))]
pub fn check_open<'a>(
    system: &'a [u8],
    scheme: u8,
    rounds: u8,
    v: &'a [u8],
    s: &'a [u8],
) -> Result<System<'a>, Refusal>
    ensures refusal { number_of result ≡ open_refusal system.now scheme rounds v.now s.now }
    ensures system { IfOk result (λ good. good.bytes.now ≡ system.now) }
{
    let system = check_open_form(system, scheme, rounds, v, s)?;
    let image = f(&system, from_slice(s));
    require(image == from_slice(v), Refusal::Secret)?;
    Ok(system)
}

// What `commit` refuses.
#[tactic(auto, using(refusal::proofs::Answers::chain), unfolding(crate::specs::Card::commit_refusal, crate::specs::Card::phase_number))]
pub fn check_commit<'a>(
    card: Card,
    system: &'a [u8],
    lent: &'a [u8],
    out_len: usize,
) -> Result<System<'a>, Refusal>
    ensures refusal { number_of result ≡ commit_refusal card system.now lent.now out_len }
    ensures system { IfOk result (λ good. good.bytes.now ≡ system.now) }
{
    require_due(card.phase, CardPhase::Commit)?;
    let system = System::of_sizes(system, card.q, card.n, card.m)?;
    require(
        lent.len() == card.scheme.lent_length(card.n, card.m),
        Refusal::Length,
    )?;
    require(out_len == card.scheme.commitments_length(), Refusal::Length)?;
    let drawn = part(lent, 0, card.scheme.drawn_length(card.n, card.m));
    require(all_below(card.q, drawn), Refusal::Element)?;
    Ok(system)
}

// What `answer_alpha` refuses.
#[tactic(auto, using(refusal::proofs::Answers::chain), unfolding(crate::specs::Card::alpha_refusal, crate::specs::Card::phase_number))]
pub fn check_alpha(
    card: Card,
    system: &[u8],
    alpha: u8,
    out_len: usize,
) -> Result<System<'_>, Refusal>
    ensures refusal { number_of result ≡ alpha_refusal card system.now alpha out_len }
    ensures system { IfOk result (λ good. good.bytes.now ≡ system.now) }
{
    require_due(card.phase, CardPhase::AnswerAlpha)?;
    let Card { q, n, m, .. } = card;
    let system = System::of_sizes(system, q, n, m)?;
    let middle = usize::from(n) + usize::from(m);
    require(out_len == middle, Refusal::Length)?;
    require(alpha < q, Refusal::Element)?;
    Ok(system)
}

// What `reply` refuses; 1 is for a q, n or m that no opening gives a session.
#[tactic(auto, using(refusal::proofs::Answers::chain), unfolding(crate::specs::Card::reply_refusal, crate::specs::Card::phase_number))]
pub fn check_reply(card: Card, challenge: u8, out_len: usize) -> Result<(), Refusal>
    ensures { number_of result ≡ reply_refusal card challenge out_len }
{
    require_due(card.phase, CardPhase::Reply)?;
    require(are_sizes(card.q, card.n, card.m), Refusal::Value)?;
    require(
        out_len == card.scheme.reply_length(card.n, card.m),
        Refusal::Length,
    )?;
    require(challenge < card.scheme.challenges(), Refusal::Challenge)
}
