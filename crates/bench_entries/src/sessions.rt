// All calls of one round of a session, each on the session that the last one gave back. In scheme 3 the calls that only scheme
// 5 has are refused, and leave the session as it is.
ghost use Rattle.std.specs.Prelude.{◌≡◌, false, length};
ghost use Rattle.refusal.specs.Refusal.{kept};
ghost use Rattle.card_state.specs.Card.{sent_commitments, sent_middle, sent_reply, commit_refusal, alpha_refusal, reply_refusal as card_reply_refusal};
ghost use Rattle.carrier_state.specs.Carrier.{accepts_reply, reply_refusal as carrier_reply_refusal};
ghost use Rattle.bench_entries.specs.Bench.{open_card, card_committed, card_answered, carrier_asked};

use refusal::number_of;

// The card: open with one round, commit, reply to α, reply. Answers the refusal of the reply.
#[tactic(auto, unfolding(crate::specs::Bench::open_card, crate::specs::Bench::card_committed, crate::specs::Bench::card_answered))]
#[unsafe(no_mangle)]
pub extern "C" fn bench_card<'a>(
    system: &'a [u8],
    scheme: u8,
    v: &'a [u8],
    s: &'a [u8],
    lent: &'a [u8],
    alpha: u8,
    challenge: u8,
    commitments: &mut [u8],
    middle: &mut [u8],
    reply: &mut [u8],
) -> u8
    ensures { (result ≡ card_reply_refusal
        (card_answered system.now scheme v.now s.now lent.now
        (length commitments.old) alpha (length middle.old))
        challenge (length reply.old))
        × (commitments.new ≡ kept
        (commit_refusal (open_card system.now scheme v.now s.now)
        system.now lent.now (length commitments.old))
        commitments.old
        (sent_commitments (open_card system.now scheme v.now s.now)
        system.now lent.now))
        × (middle.new ≡ kept
        (alpha_refusal
        (card_committed system.now scheme v.now s.now lent.now (length commitments.old))
        system.now alpha (length middle.old))
        middle.old
        (sent_middle
        (card_committed system.now scheme v.now s.now lent.now (length commitments.old))
        system.now alpha))
        × (reply.new ≡ kept result reply.old (sent_reply
        (card_answered system.now scheme v.now s.now lent.now
        (length commitments.old) alpha (length middle.old))
        challenge)) }
{
    let opened = card::open(system, scheme, 1, v, s).session;
    let committed = card::commit(opened, system, lent, commitments).session;
    let answered = card::answer_alpha(committed, system, alpha, middle).session;
    number_of(card::reply(answered, challenge, reply).answer)
}

// The carrier: open with one round, take the commitments, set α, take t1 and e1, set the challenge, take the reply. Answers
// whether the round is accepted.
#[tactic(auto, using(refusal::proofs::Answers::chain), unfolding(crate::specs::Bench::open_carrier, crate::specs::Bench::carrier_committed, crate::specs::Bench::carrier_weighed, crate::specs::Bench::carrier_told, crate::specs::Bench::carrier_asked))]
#[unsafe(no_mangle)]
pub extern "C" fn bench_carrier<'a>(
    system: &'a [u8],
    scheme: u8,
    v: &'a [u8],
    commitments: &'a [u8],
    alpha: u8,
    middle: &'a [u8],
    challenge: u8,
    reply: &'a [u8],
) -> bool
    ensures { result ≡ kept
        (carrier_reply_refusal
        (carrier_asked system.now scheme v.now commitments.now alpha middle.now challenge)
        system.now reply.now)
        false
        (accepts_reply
        (carrier_asked system.now scheme v.now commitments.now alpha middle.now challenge)
        system.now reply.now) }
{
    let opened = carrier::open(system, scheme, 1, v).session;
    let committed = carrier::take_commitments(opened, commitments).session;
    let weighed = carrier::set_alpha(committed, alpha).session;
    let taken = carrier::take_middle(weighed, middle).session;
    let asked = carrier::set_challenge(taken, challenge).session;
    carrier::take_reply(asked, system, reply)
        .answer
        .unwrap_or(false)
}
