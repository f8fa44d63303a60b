// Counts of cases.
ghost use Rattle.std.specs.Prelude.{◌≡◌, false};

use std::fmt;

// The cases, those of them that agree, and the first that does not, from 1.
#[derive(Clone, Copy)]
pub struct Tally {
    cases: u64,
    agree: u64,
    first: Option<u64>,
}

impl Tally {
    pub fn none() -> Tally {
        Tally {
            cases: 0,
            agree: 0,
            first: None,
        }
    }

    // One case more: one that differs is not counted among those that agree. A file has fewer cases than bytes, so that no count
    // wraps.
    pub fn count(&mut self, agrees: bool)
        ensures { agrees ≡ false → self.new.agree ≡ self.old.agree }
    {
        self.cases = self.cases.wrapping_add(1);
        if agrees {
            self.agree = self.agree.wrapping_add(1);
        } else {
            self.first = self.first.or(Some(self.cases));
        }
    }
}

// N cases, M agree
impl fmt::Display for Tally {
    fn fmt<W: fmt::Write>(&self, f: &mut fmt::Formatter<W>) -> fmt::Result {
        write!(f, "{} cases, {} agree", self.cases, self.agree)?;
        if let Some(first) = self.first {
            write!(f, ", the first that differs is {first}")?;
        }
        Ok(())
    }
}
