// A directed interval: two whole numbers, of which the first need not be the lesser.
ghost use Rattle.std.specs.Prelude.{◌≡◌, true, Some, Decides};
ghost use Rattle.interval.specs.Directed.{dual as dual_of, kind_of, kind_text, ends_text, Says, LiesIn, in_limit as in_limit_of, within as within_of, Within};

use std::cmp::Ordering;
use std::fmt;

#[derive(Clone, Copy, PartialEq, Eq, Debug)]
pub struct Interval {
    pub first: i64,
    pub second: i64,
}

// A spread (first < second) brings any of its numbers, of a trim (first > second) one number is picked,
// and a fixed interval (first = second) is one number.
#[derive(Clone, Copy, PartialEq, Eq, Debug)]
pub enum Kind {
    Spread,
    Trim,
    Fixed,
}

impl Interval {
    pub const NOUGHT: Interval = Interval {
        first: 0,
        second: 0,
    };

    pub fn kind(self) -> Kind
        ensures value { result ≡ kind_of self }
        ensures says { Says result self }
    {
        match self.first.cmp(&self.second) {
            Ordering::Less => Kind::Spread,
            Ordering::Equal => Kind::Fixed,
            Ordering::Greater => Kind::Trim,
        }
    }

    // The interval turned over.
    pub fn dual(self) -> Interval
        ensures { result ≡ dual_of self }
    {
        Interval {
            first: self.second,
            second: self.first,
        }
    }

    // Whether this interval lies in the other: it begins no lower and ends no higher.
    pub fn lies_in(self, other: Interval) -> bool
        ensures { Decides result (LiesIn self other) }
    {
        self.first >= other.first && self.second <= other.second
    }

    // Whether both ends are at most `limit` in size.
    pub fn within(self, limit: u64) -> bool
        ensures value { result ≡ within_of limit self }
        ensures tells { result ≡ true → Within limit self }
    {
        in_limit(self.first, limit) && in_limit(self.second, limit)
    }
}

// Whether a number is at most `limit` in size.
pub fn in_limit(n: i64, limit: u64) -> bool
    ensures { result ≡ in_limit_of limit n }
{
    n.unsigned_abs() <= limit
}

impl From<(i64, i64)> for Interval {
    ghost from_gives = { λ ends r. (r.first ≡ ends.0) × (r.second ≡ ends.1) };

    fn from(ends: (i64, i64)) -> Interval {
        Interval {
            first: ends.0,
            second: ends.1,
        }
    }
}

impl fmt::Display for Interval {
    ghost output = { λ x. Some (ends_text x) };

    fn fmt<W: fmt::Write>(&self, f: &mut fmt::Formatter<W>) -> fmt::Result {
        let first = self.first;
        let second = self.second;
        write!(f, "({first}, {second})")
    }
}

// Each enum has its own words: one function for all would take them as parameters.
impl fmt::Display for Kind {
    ghost output = { λ k. Some (kind_text k) };

    fn fmt<W: fmt::Write>(&self, f: &mut fmt::Formatter<W>) -> fmt::Result {
        f.write_str(match self {
            Kind::Spread => "spread",
            Kind::Trim => "trim",
            Kind::Fixed => "fixed",
        })
    }
}
