// All intervals with ends from -2 to 2, and all pairs of them. Sums, products and multiples are compared with what
// Kaucher's operations mean, by enumeration: the first end is the least that the spreads can force where the trims
// answer for the greatest, and the second end the greatest that they can force where the trims answer for the least.
use interval::{Class, Interval, Kind};
use std::ops::RangeInclusive;
use std::process::Abort;
use std::test::Fail;

const ENDS: [i64; 5] = [-2, -1, 0, 1, 2];

#[derive(Clone, Copy)]
enum Extreme {
    Least,
    Greatest,
}

impl Extreme {
    fn other(self) -> Extreme {
        match self {
            Extreme::Least => Extreme::Greatest,
            Extreme::Greatest => Extreme::Least,
        }
    }

    // Spreads go for this extreme, and trims for the other.
    fn aim(self, x: Interval) -> Extreme {
        if x.first <= x.second {
            self
        } else {
            self.other()
        }
    }
}

// The numbers from one end to the other.
fn numbers(x: Interval) -> RangeInclusive<i64> {
    x.first.min(x.second)..=x.first.max(x.second)
}

// What `y` makes of the number `s`. An operation that is passed in is required to be callable, as the language asks of each
// function that takes one.
fn answered<F: Fn(i64, i64) -> i64>(
    s: i64,
    operation: &F,
    y: Interval,
    wanted: Extreme,
) -> Option<i64>
    requires { F.IsAlwaysCallable operation.now }
{
    let answers = numbers(y).map(|t| operation(s, t));
    match wanted.aim(y) {
        Extreme::Least => answers.min(),
        Extreme::Greatest => answers.max(),
    }
}

// What is forced where spreads come before trims.
fn forced<F: Fn(i64, i64) -> i64>(
    x: Interval,
    operation: &F,
    y: Interval,
    wanted: Extreme,
) -> Option<i64>
    requires { F.IsAlwaysCallable operation.now }
{
    let (x, y) = if x.first > x.second { (y, x) } else { (x, y) };
    let answers = numbers(x).filter_map(|s| answered(s, operation, y, wanted));
    match wanted.aim(x) {
        Extreme::Least => answers.min(),
        Extreme::Greatest => answers.max(),
    }
}

fn check_forced<F: Fn(i64, i64) -> i64>(
    rt: &impl Abort,
    ends: (i64, i64),
    x: Interval,
    operation: &F,
    y: Interval,
)
    requires { F.IsAlwaysCallable operation.now }
{
    assert_eq!(rt; Some(ends.0), forced(x, operation, y, Extreme::Least));
    assert_eq!(rt; Some(ends.1), forced(x, operation, y, Extreme::Greatest));
}

fn plus(s: i64, t: i64) -> i64 {
    s.saturating_add(t)
}

fn times(s: i64, t: i64) -> i64 {
    s.saturating_mul(t)
}

fn check_pair(rt: &impl Abort, x: Interval, y: Interval) -> Result<(), Fail> {
    check_forced(rt, x.sum(y)?, x, &plus, y);
    check_forced(rt, x.product(y)?, x, &times, y);
    Ok(())
}

#[test]
fn sums_and_products(rt: HostRuntime) -> Result<(), Fail> {
    for a in ENDS {
        for b in ENDS {
            for c in ENDS {
                for d in ENDS {
                    check_pair(&rt, Interval::from((a, b)), Interval::from((c, d)))?;
                }
            }
        }
    }
    Ok(())
}

fn check_multiples(rt: &impl Abort, x: Interval) -> Result<(), Fail> {
    for t in ENDS {
        check_forced(rt, x.multiple(t)?, Interval::from((t, t)), &times, x);
    }
    check_forced(rt, x.opposite()?, Interval::from((-1, -1)), &times, x);
    Ok(())
}

#[test]
fn multiples_and_opposites(rt: HostRuntime) -> Result<(), Fail> {
    for a in ENDS {
        for b in ENDS {
            check_multiples(&rt, Interval::from((a, b)))?;
        }
    }
    Ok(())
}

const P: Class = Class::NonNegative;

const N: Class = Class::NonPositive;

const Z: Class = Class::SpreadThroughZero;

const D: Class = Class::TrimThroughZero;

// A row for each first end, a column for each second end.
const CLASSES: [[Class; 5]; 5] = [
    [N, N, N, Z, Z],
    [N, N, N, Z, Z],
    [N, N, P, P, P],
    [D, D, P, P, P],
    [D, D, P, P, P],
];

const F: Kind = Kind::Fixed;

const S: Kind = Kind::Spread;

const T: Kind = Kind::Trim;

const KINDS: [[Kind; 5]; 5] = [
    [F, S, S, S, S],
    [T, F, S, S, S],
    [T, T, F, S, S],
    [T, T, T, F, S],
    [T, T, T, T, F],
];

#[test]
fn classes_and_kinds(rt: HostRuntime) {
    for ((a, classes), kinds) in ENDS.iter().zip(CLASSES.iter()).zip(KINDS.iter()) {
        for ((b, class), kind) in ENDS.iter().zip(classes.iter()).zip(kinds.iter()) {
            let x = Interval::from((*a, *b));
            assert_eq!(rt; x.class(), *class);
            assert_eq!(rt; x.kind(), *kind);
            assert_eq!(rt; x.dual(), Interval::from((*b, *a)));
        }
    }
}

// (1, 2) against each interval that differs from it by one at an end or at both, and against its dual.
#[test]
fn lying_in(rt: HostRuntime) {
    let x = Interval::from((1, 2));
    for (first, second, lies) in [
        (1, 2, true),
        (0, 2, true),
        (1, 3, true),
        (0, 3, true),
        (2, 2, false),
        (1, 1, false),
        (2, 3, false),
        (0, 1, false),
        (2, 1, false),
    ] {
        assert_eq!(rt; x.lies_in(Interval::from((first, second))), lies);
    }
    assert!(rt; x.dual().lies_in(x));
}
