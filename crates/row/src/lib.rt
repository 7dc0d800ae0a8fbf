// One row at fixed factors: each cell times its factor, added up, and what the sum says.
#![tactic(auto)]

ghost use Rattle.interval.specs.Refusals.{Answers};
ghost use Rattle.std.specs.Prelude.{IfOk, Some};
ghost use Rattle.interval.specs.Arithmetic.{multiple as multiple_of};
ghost use Rattle.row.specs.Row.{multiple_refusal, step_of, refusal_of, Walked, Judges, verdict_text};

use interval::{Interval, Refusal};
use std::alloc::{AllocError, Global};
use std::fmt;

#[derive(Clone, Copy, PartialEq, Eq, Debug)]
pub struct Term {
    pub cell: Interval,
    pub factor: i64,
}

// What one term makes of the sum before it.
#[derive(Clone, Copy, PartialEq, Eq, Debug)]
pub struct Step {
    pub multiple: Interval,
    pub sum: Interval,
}

impl Term {
    pub fn multiple(self) -> Result<Interval, Refusal>
        ensures { Answers (multiple_refusal self) (multiple_of self.factor self.cell) result }
    {
        Ok(Interval::from(self.cell.multiple(self.factor)?))
    }

    pub fn add_to(self, sum: Interval) -> Result<Step, Refusal>
        ensures { Answers (refusal_of sum self) (step_of sum self) result }
    {
        let multiple = self.multiple()?;
        Ok(Step {
            multiple,
            sum: Interval::from(sum.sum(multiple)?),
        })
    }
}

// The steps of a row up to the first that is refused, and the row's sum or that refusal.
#[derive(Drop)]
pub struct Walk {
    pub steps: Vec<Step>,
    pub end: Result<Interval, Refusal>,
}

impl Walk {
    pub fn along(heap: Global, terms: &[Term]) -> Result<Walk, AllocError>
        ensures { IfOk result (Walked terms.now) }
    {
        let mut steps = Vec::new(heap);
        let mut sum = Interval::NOUGHT;
        for term in terms {
            match term.add_to(sum) {
                Ok(step) => {
                    steps.push(step)?;
                    sum = step.sum;
                }
                Err(refusal) => return Ok(Walk {
                    steps,
                    end: Err(refusal),
                }),
            }
        }
        Ok(Walk {
            steps,
            end: Ok(sum),
        })
    }
}

// `Low` and `High` hold what the best trim leaves at the worst spread.
#[derive(Clone, Copy, PartialEq, Eq, Debug)]
pub enum Verdict {
    Balanced,
    Low(i64),
    High(i64),
}

impl Verdict {
    // What a row's sum says of the row.
    pub fn of(sum: Interval) -> Verdict
        ensures { Judges result sum }
    {
        if sum.first < 0 {
            Verdict::Low(sum.first)
        } else if sum.second > 0 {
            Verdict::High(sum.second)
        } else {
            Verdict::Balanced
        }
    }
}

impl fmt::Display for Verdict {
    ghost output = { λ v. Some (verdict_text v) };

    fn fmt<W: fmt::Write>(&self, f: &mut fmt::Formatter<W>) -> fmt::Result {
        match self {
            Verdict::Balanced => write!(
                f,
                "balanced: whatever the spreads bring, some trim brings the row to 0"
            ),
            Verdict::Low(n) => write!(
                f,
                "not balanced, LOW: where the spreads fall worst, the row stays at {n} or below, whatever the trim"
            ),
            Verdict::High(n) => write!(
                f,
                "not balanced, HIGH: where the spreads fall worst, the row stays at {n} or above, whatever the trim"
            ),
        }
    }
}
