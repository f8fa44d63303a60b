// What the reply of a round opens: the hashed strings, their comparison, and the secret that two replies give.
//
// Nothing here refuses: whoever calls has checked the system and read the records.
#![tactic(auto)]

ghost use Rattle.std.specs.Prelude.{◌≡◌};
ghost use Rattle.scheme.specs.declared.Scheme.TheVariants.{ThreePass, FivePass};
ghost use Rattle.commitment.specs.Texts.{content, TextOf};
ghost use Rattle.round.specs.Openings.{string_of, opening_of};
ghost use Rattle.round.specs.ThreePass.{openings_three};
ghost use Rattle.record_form.specs.Record.{header_in};
ghost use Rattle.openings.specs.Openings.{string_in, same_vectors, reply_vector, secret_of};

use commitment::{Domain, Text, vectors_at};
use exchange::{read_middle, read_reply_five, read_reply_three};
use field::{add_vectors, slot};
use record::header_of;
use round::{ReplyThree, first_number, first_opening, opening_five, second_opening};
use scheme::Scheme;
use slices::{byte_at, part};
use system::System;
use transcript::{domain_in, key_vector, round_challenge, round_reply, round_turn};

// Three passes: the string with which a reply opens commitment k.
fn opening_three(
    system: &System,
    d: Domain,
    v: [u8; 96],
    challenge: u8,
    reply: ReplyThree,
    k: u8,
) -> Text
    ensures { TextOf (string_of d (opening_of k (openings_three system.now.bytes.now v challenge reply))) 0 result }
{
    if k == first_number(challenge) {
        first_opening(system, d, v, challenge, reply)
    } else {
        second_opening(system.bytes, d, challenge, reply)
    }
}

// Three passes: the string with which a round of a record opens commitment k.
#[tactic(auto, using(commitment::proofs::Texts::text_as, crate::proofs::Listed::three_in))]
fn opening_three_in(system: &System, bytes: &[u8], r: u8, k: u8) -> Text
    requires { (header_in bytes.now).scheme ≡ ThreePass }
    ensures { TextOf (string_in system.now.bytes.now bytes.now r k) 0 result }
{
    let n = system.n();
    let m = system.m();
    opening_three(
        system,
        domain_in(bytes),
        key_vector(bytes),
        round_challenge(bytes, r),
        read_reply_three(round_reply(bytes, r), n, m),
        k,
    )
}

// Five passes: a round opens one commitment, by its challenge.
#[tactic(auto, using(commitment::proofs::Texts::text_as, crate::proofs::Listed::five_in))]
fn opening_five_in(system: &System, bytes: &[u8], r: u8, k: u8) -> Text
    requires { (header_in bytes.now).scheme ≡ FivePass }
    ensures { TextOf (string_in system.now.bytes.now bytes.now r k) 0 result }
{
    let n = system.n();
    let m = system.m();
    let turn = round_turn(bytes, r);
    opening_five(
        system,
        domain_in(bytes),
        byte_at(turn, 0),
        key_vector(bytes),
        read_middle(turn, n, m),
        round_challenge(bytes, r),
        read_reply_five(round_reply(bytes, r), n),
    )
}

// The string with which a round of a record opens commitment k.
pub fn opened_string(system: &System, bytes: &[u8], r: u8, k: u8) -> Text
    ensures { TextOf (string_in system.now.bytes.now bytes.now r k) 0 result }
{
    match header_of(bytes).scheme {
        Scheme::ThreePass => opening_three_in(system, bytes, r, k),
        Scheme::FivePass => opening_five_in(system, bytes, r, k),
    }
}

// Whether two strings hold the same vectors; ρ is not looked at.
pub fn same_vectors(d: Domain, x: Text, y: Text) -> bool
    ensures { result ≡ same_vectors d (content x) (content y) }
{
    let at = vectors_at(d);
    part(part(&x.bytes, 0, x.len), at, x.len) == part(part(&y.bytes, 0, y.len), at, y.len)
}

// The first vector of a reply: r0 to challenge 0, r1 to challenge 1. Here and in `secret` the system is any bytes: a `System` would ask
// more of callers.
#[tactic(auto, unfolding(crate::specs::Openings::reply_vector))]
fn reply_vector(system: &[u8], bytes: &[u8], r: u8) -> [u8; 96]
    ensures { result ≡ reply_vector system.now bytes.now r }
{
    slot(round_reply(bytes, r), 0, byte_at(system, 1))
}

// s = r0 + r1, from a reply to challenge 0 and one to challenge 1.
#[tactic(auto, unfolding(crate::specs::Openings::secret_of))]
pub fn secret(system: &[u8], zero: &[u8], one: &[u8], r: u8) -> [u8; 96]
    ensures { result ≡ secret_of system.now zero.now one.now r }
{
    add_vectors(
        byte_at(system, 0),
        byte_at(system, 1),
        reply_vector(system, zero, r),
        reply_vector(system, one, r),
    )
}
