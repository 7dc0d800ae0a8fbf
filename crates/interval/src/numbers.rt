// A number within a limit.
ghost use Rattle.std.specs.Prelude.{◌≡◌, true, neg_ℤ};
ghost use Rattle.interval.specs.Refusals.{unless, Gives};
ghost use Rattle.interval.specs.Directed.{in_limit as in_limit_of};

use crate::directed::in_limit;
use crate::refusals::Refusal;
use std::ops::Neg;

#[derive(Clone, Copy, PartialEq, Eq, Debug)]
pub struct Number<const LIMIT: u32> {
    pub value: i64,
    ghost near: { in_limit_of LIMIT value ≡ true },
}

impl<const LIMIT: u32> TryFrom<i64> for Number<LIMIT> {
    type Error = Refusal;

    ghost try_from_gives = { λ n r. Gives (unless (in_limit_of LIMIT n) 3) (λ x. x.value ≡ n) r };

    fn try_from(value: i64) -> Result<Number<LIMIT>, Refusal> {
        if !in_limit(value, u64::from(LIMIT)) {
            return Err(Refusal::OutsideLimit);
        }
        Ok(Number { value })
    }
}

impl<const LIMIT: u32> Neg for Number<LIMIT> {
    type Output = Number<LIMIT>;

    ghost neg_gives = { λ x r. r.value ≡ neg_ℤ x.value };

    fn neg(self) -> Number<LIMIT> {
        Number { value: -self.value }
    }
}
