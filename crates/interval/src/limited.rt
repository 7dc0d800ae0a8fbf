// An interval with both ends within a limit.
ghost use Rattle.std.specs.Prelude.{◌≡◌};
ghost use Rattle.interval.specs.Refusals.{unless, Gives};
ghost use Rattle.interval.specs.Directed.{within as within_of, dual as dual_of};
ghost use Rattle.interval.specs.Arithmetic.{opposite as opposite_of};
ghost use Rattle.interval.specs.Limited.{interval_of};

use crate::directed::Interval;
use crate::numbers::Number;
use crate::refusals::Refusal;
use std::ops::Neg;

#[derive(Clone, Copy, PartialEq, Eq, Debug)]
pub struct Limited<const LIMIT: u32> {
    pub first: Number<LIMIT>,
    pub second: Number<LIMIT>,
}

impl<const LIMIT: u32> Limited<LIMIT> {
    // The interval turned over. One text with `Interval::dual` would need a struct generic in its ends, and every definition that
    // speaks of an interval would carry the type of them.
    pub fn dual(self) -> Limited<LIMIT>
        ensures { interval_of result ≡ dual_of (interval_of self.entry) }
    {
        Limited {
            first: self.second,
            second: self.first,
        }
    }
}

// The interval of the negatives.
impl<const LIMIT: u32> Neg for Limited<LIMIT> {
    type Output = Limited<LIMIT>;

    ghost neg_gives = { λ x r. interval_of r ≡ opposite_of (interval_of x) };

    fn neg(self) -> Limited<LIMIT> {
        Limited {
            first: -self.second,
            second: -self.first,
        }
    }
}

impl<const LIMIT: u32> TryFrom<Interval> for Limited<LIMIT> {
    type Error = Refusal;

    ghost try_from_gives = { λ x r. Gives (unless (within_of LIMIT x) 3) (λ l. interval_of l ≡ x) r };

    fn try_from(interval: Interval) -> Result<Limited<LIMIT>, Refusal> {
        Ok(Limited {
            first: Number::try_from(interval.first)?,
            second: Number::try_from(interval.second)?,
        })
    }
}

impl<const LIMIT: u32> From<Limited<LIMIT>> for Interval {
    ghost from_gives = { λ l x. x ≡ interval_of l };

    fn from(limited: Limited<LIMIT>) -> Interval {
        Interval {
            first: limited.first.value,
            second: limited.second.value,
        }
    }
}
