// What the sessions of both ends share: the verdict in their closed phase, the answer to a call, the refusals by the state, and a
// count of rounds.
#![tactic(auto)]

ghost use Rattle.std.specs.Prelude.{ℕ, ◌≡◌, eqb, Ok, Err};
ghost use Rattle.refusal.specs.Refusal.{number_of};
ghost use Rattle.session_state.specs.State.{state_refusal, next_count};

use refusal::{Refusal, require};

// How a session ended. A card's session and one whose opening was refused have none. By a rule of the project this is an enum in the
// closed phase, and no Option.
#[derive(Clone, Copy, Debug, PartialEq, Eq)]
pub enum Verdict {
    None,
    Accepted,
    Rejected,
}

// The answer to a call, and the session afterwards: where the call is refused, the one that was handed in.
#[derive(Clone, Copy)]
pub struct Answered<S, T> {
    pub answer: Result<T, Refusal>,
    pub session: S,
}

// A session's phase: which call is due, or that the session is closed.
pub trait Phase: Drop {
    // The due call by number, 0 for a closed session.
    ghost number: { Self → ℕ };

    fn is_closed(&self) -> bool
        ensures { result ≡ eqb (number self.now) 0 };

    // Whether this call is due; of a closed session it is not asked.
    fn is(&self, due: &Self) -> bool
        ensures { (number self.now ≡ 0 → ⊥) → result ≡ eqb (number self.now) (number due.now) };
}

// 11 for a closed session, 10 for a call that is not due.
#[tactic(auto, unfolding(crate::specs::State::state_refusal))]
pub fn require_due<P: Phase>(phase: P, due: P) -> Result<(), Refusal>
    ensures { number_of result ≡ state_refusal (P.number phase) (P.number due) }
{
    if phase.is_closed() {
        return Err(Refusal::Closed);
    }
    require(phase.is(&due), Refusal::NotDue)
}

impl<S: Drop, T: Drop> Answered<S, T> {
    // A call that is not refused.
    pub fn done(value: T, session: S) -> Answered<S, T>
        ensures answer { result.answer ≡ Ok value }
        ensures session { result.session ≡ session }
    {
        Answered {
            answer: Ok(value),
            session,
        }
    }

    // One that is.
    pub fn refused(refusal: Refusal, session: S) -> Answered<S, T>
        ensures answer { result.answer ≡ Err refusal }
        ensures session { result.session ≡ session }
    {
        Answered {
            answer: Err(refusal),
            session,
        }
    }
}

// One round more; a byte tells no more than 255.
#[tactic(auto, unfolding(crate::specs::State::next_count))]
pub fn next_count(k: u8) -> u8
    ensures { result ≡ next_count k }
{
    k.saturating_add(1)
}
