// The sign class of a directed interval.
ghost use Rattle.std.specs.Prelude.{◌≡◌};
ghost use Rattle.interval.specs.Classes.{class_of, Signs};

use crate::directed::Interval;

#[derive(Clone, Copy, PartialEq, Eq, Debug)]
pub enum Class {
    NonNegative,
    NonPositive,
    SpreadThroughZero,
    TrimThroughZero,
}

impl Interval {
    // (0, 0) is both non-negative and non-positive; it counts as the first, and the product is the same by either.
    pub fn class(self) -> Class
        ensures value { result ≡ class_of self }
        ensures signs { Signs result self }
    {
        match (self.first, self.second) {
            (a, b) if a >= 0 && b >= 0 => Class::NonNegative,
            (a, b) if a <= 0 && b <= 0 => Class::NonPositive,
            (a, _) if a < 0 => Class::SpreadThroughZero,
            _ => Class::TrimThroughZero,
        }
    }
}
