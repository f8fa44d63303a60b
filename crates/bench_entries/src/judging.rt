// A whole record judged, with no text made of it.
ghost use Rattle.std.specs.Prelude.{◌≡◌};
ghost use Rattle.refusal.specs.Refusal.{kept};
ghost use Rattle.record_form.specs.Record.{header_in};
ghost use Rattle.transcript.specs.Transcript.{judge_refusal, accepted_count};

use record::header_of;
use system::System;
use transcript::{accepts_round, checked_system};

// How many rounds of a record are accepted.
fn accepted_rounds(system: &System, bytes: &[u8]) -> u8
    ensures { result ≡ accepted_count system.now.bytes.now bytes.now (header_in bytes.now).rounds }
{
    let rounds = header_of(bytes).rounds;
    let mut accepted = 0;
    for r in 0..rounds {
        accepted += u8::from(accepts_round(system, bytes, r));
    }
    accepted
}

// Judges every round of a record and puts the count of accepted ones in `accepted`; answers 0, or the number of the refusal,
// and then the count is what it was.
#[tactic(auto, using(refusal::proofs::Answers::chain))]
#[unsafe(no_mangle)]
pub extern "C" fn bench_judge<'a>(system: &'a [u8], bytes: &'a [u8], accepted: &mut u8) -> u8
    ensures { (result ≡ judge_refusal system.now bytes.now)
        × (accepted.new ≡ kept result accepted.old
        (accepted_count system.now bytes.now (header_in bytes.now).rounds)) }
{
    match checked_system(system, bytes) {
        Ok(system) => {
            *accepted = accepted_rounds(&system, bytes);
            0
        }
        Err(refusal) => u8::from(refusal),
    }
}
