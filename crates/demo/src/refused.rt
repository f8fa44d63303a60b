// What ends a run before the input does.
use refusal::Refusal;
use std::fmt;

// The refusal, what was refused, and in which round, counted from 1, where it was a call of one.
#[derive(Clone, Copy)]
pub struct Refused {
    pub refusal: Refusal,
    pub call: &'static str,
    pub round: Option<u16>,
}

impl Refused {
    // A refusal outside of a round.
    pub fn of(refusal: Refusal, call: &'static str) -> Refused {
        Refused {
            refusal,
            call,
            round: None,
        }
    }

    // An input that is too long or too short.
    pub fn input() -> Refused {
        Refused::of(Refusal::Length, "input")
    }
}

// `refused 5 card open`, or `refused 3 card commit, round 2`
impl fmt::Display for Refused {
    fn fmt<W: fmt::Write>(&self, f: &mut fmt::Formatter<W>) -> fmt::Result {
        write!(f, "{} {}", self.refusal, self.call)?;
        if let Some(round) = self.round {
            write!(f, ", round {round}")?;
        }
        Ok(())
    }
}
