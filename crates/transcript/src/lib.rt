// The rounds of a record, counted from 0: their messages, whether each is accepted, and what is refused before they are
// judged.
//
// No message is refused: of a record that is too short, what there is of a message is given. Whoever takes a record from
// outside reads it first; `checked_system` does so, with the system by which the record is judged.
//
// The bytes and the round are two arguments, as in the definitions: with a struct each contract would have to name its two fields.
#![tactic(auto)]

ghost use Rattle.std.specs.Prelude.{◌≡◌, IfOk};
ghost use Rattle.refusal.specs.Refusal.{number_of};
ghost use Rattle.transcript.specs.Transcript.{fit_refusal, judge_refusal, domain_in, key_vector, round_commitments};
ghost use Rattle.transcript.specs.Transcript.{round_exchange, round_turn, round_challenge, round_reply, accepted_round};

use commitment::Domain;
use exchange::judge;
use field::from_slice;
use record::{body_of, header_of, read};
use refusal::{Refusal, require};
use scheme::of_rounds;
use slices::{byte_at, part};
use system::{System, has_sizes};

// Refuses a system that has not the q, n and m of a record.
#[tactic(auto, unfolding(crate::specs::Transcript::fit_refusal))]
pub fn check_fit(system: &[u8], bytes: &[u8]) -> Result<(), Refusal>
    ensures { number_of result ≡ fit_refusal system.now bytes.now }
{
    let h = header_of(bytes);
    require(has_sizes(system, h.q, h.n, h.m), Refusal::Mismatch)
}

// The system by which a record is judged, both checked.
#[tactic(auto, using(refusal::proofs::Answers::chain), unfolding(crate::specs::Transcript::judge_refusal))]
pub fn checked_system<'a>(system: &'a [u8], bytes: &[u8]) -> Result<System<'a>, Refusal>
    ensures refusal { number_of result ≡ judge_refusal system.now bytes.now }
    ensures bytes { IfOk result (λ checked. checked.bytes.now ≡ system.now) }
{
    let checked = System::new(system)?;
    read(bytes)?;
    check_fit(system, bytes)?;
    Ok(checked)
}

// What stands before ρ in the strings of a record's rounds.
#[tactic(auto, unfolding(crate::specs::Transcript::domain_in))]
pub fn domain_in(bytes: &[u8]) -> Domain
    ensures { result ≡ domain_in bytes.now }
{
    Domain {
        scheme: header_of(bytes).scheme,
    }
}

// v.
#[tactic(auto, unfolding(crate::specs::Transcript::key_vector, record_form::specs::Record::fields_in))]
pub fn key_vector(bytes: &[u8]) -> [u8; 96]
    ensures { result ≡ key_vector bytes.now }
{
    from_slice(body_of(bytes, header_of(bytes).layout().key))
}

// The commitments of a round.
#[tactic(auto, unfolding(crate::specs::Transcript::round_commitments, record_form::specs::Record::commitments_of, record_form::specs::Record::fields_in))]
pub fn round_commitments(bytes: &[u8], r: u8) -> &[u8]
    ensures { result.now ≡ round_commitments bytes.now r }
{
    let h = header_of(bytes);
    let each = h.scheme.commitments_length();
    part(
        body_of(bytes, h.layout().commitments),
        of_rounds(r, each),
        each,
    )
}

// The exchange of a round.
#[tactic(auto, unfolding(crate::specs::Transcript::round_exchange, record_form::specs::Record::exchange_of, record_form::specs::Record::exchange_length, record_form::specs::Record::fields_in))]
pub fn round_exchange(bytes: &[u8], r: u8) -> &[u8]
    ensures { result.now ≡ round_exchange bytes.now r }
{
    let h = header_of(bytes);
    let each = h.scheme.exchange_length(h.n, h.m);
    part(
        body_of(bytes, h.layout().exchanges),
        of_rounds(r, each),
        each,
    )
}

// What of an exchange stands before the challenge: α, t1 and e1, or nothing.
#[tactic(auto, unfolding(record_form::specs::Record::turn_of))]
pub fn round_turn(bytes: &[u8], r: u8) -> &[u8]
    ensures { result.now ≡ round_turn bytes.now r }
{
    let h = header_of(bytes);
    part(round_exchange(bytes, r), 0, h.scheme.turn_length(h.n, h.m))
}

// The challenge of a round.
#[tactic(auto, unfolding(crate::specs::Transcript::round_challenge, record_form::specs::Record::challenge_of))]
pub fn round_challenge(bytes: &[u8], r: u8) -> u8
    ensures { result ≡ round_challenge bytes.now r }
{
    let h = header_of(bytes);
    byte_at(round_exchange(bytes, r), h.scheme.turn_length(h.n, h.m))
}

// The reply of a round.
#[tactic(auto, unfolding(record_form::specs::Record::reply_of))]
pub fn round_reply(bytes: &[u8], r: u8) -> &[u8]
    ensures { result.now ≡ round_reply bytes.now r }
{
    let h = header_of(bytes);
    part(
        round_exchange(bytes, r),
        h.scheme.turn_length(h.n, h.m) + 1,
        h.scheme.reply_length(h.n, h.m),
    )
}

// Whether a round is accepted.
#[tactic(auto, unfolding(crate::specs::Transcript::accepted_round))]
pub fn accepts_round(system: &System, bytes: &[u8], r: u8) -> bool
    ensures { result ≡ accepted_round system.now.bytes.now bytes.now r }
{
    judge(
        system,
        domain_in(bytes),
        key_vector(bytes),
        round_commitments(bytes, r),
        round_turn(bytes, r),
        round_challenge(bytes, r),
        round_reply(bytes, r),
    )
}
