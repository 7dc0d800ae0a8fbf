// The limit of ±1,000,000,000, one beyond it, and the least and the greatest i64.
use interval::{Class, Interval, Kind, Limited, NoSuchRefusal, Number, Refusal};
use std::process::Abort;
use std::test::Fail;

const LIMIT: i64 = 1_000_000_000;

const SQUARE: i64 = 1_000_000_000_000_000_000;

// Every call of the arithmetic refuses `beyond`, at each place, with 3.
fn refused(rt: &impl Abort, beyond: Interval) {
    let inside = Interval::from((1, -1));
    assert_eq!(rt; beyond.opposite(), Err(Refusal::OutsideLimit));
    assert_eq!(rt; beyond.sum(inside), Err(Refusal::OutsideLimit));
    assert_eq!(rt; inside.sum(beyond), Err(Refusal::OutsideLimit));
    assert_eq!(rt; beyond.product(inside), Err(Refusal::OutsideLimit));
    assert_eq!(rt; inside.product(beyond), Err(Refusal::OutsideLimit));
    assert_eq!(rt; beyond.multiple(0), Err(Refusal::OutsideLimit));
    assert_eq!(rt; u8::from(Refusal::OutsideLimit), 3);
}

#[test]
fn one_beyond_is_refused(rt: HostRuntime) {
    for end in [LIMIT + 1, -LIMIT - 1, i64::MIN, i64::MAX] {
        refused(&rt, Interval::from((end, 0)));
        refused(&rt, Interval::from((0, end)));
        refused(&rt, Interval::from((end, end)));
        assert_eq!(rt;
            Interval::from((1, 1)).multiple(end),
            Err(Refusal::OutsideLimit)
        );
    }
}

#[test]
fn at_the_limit(rt: HostRuntime) {
    let spread = Interval::from((-LIMIT, LIMIT));
    let trim = Interval::from((LIMIT, -LIMIT));
    assert_eq!(rt; spread.opposite(), Ok((-LIMIT, LIMIT)));
    assert_eq!(rt; trim.opposite(), Ok((LIMIT, -LIMIT)));
    assert_eq!(rt; Interval::from((LIMIT, 5)).opposite(), Ok((-5, -LIMIT)));
    assert_eq!(rt; spread.sum(spread), Ok((-2 * LIMIT, 2 * LIMIT)));
    assert_eq!(rt; spread.sum(trim), Ok((0, 0)));
    assert_eq!(rt; spread.product(spread), Ok((-SQUARE, SQUARE)));
    assert_eq!(rt; trim.product(trim), Ok((SQUARE, -SQUARE)));
    assert_eq!(rt; spread.product(trim), Ok((0, 0)));
    assert_eq!(rt;
        Interval::from((LIMIT, 5)).multiple(-LIMIT),
        Ok((-5 * LIMIT, -SQUARE))
    );
    assert_eq!(rt;
        Interval::from((LIMIT, 5)).multiple(LIMIT),
        Ok((SQUARE, 5 * LIMIT))
    );
}

// Turning over, lying in, the kind and the class have no limit.
#[test]
fn at_the_ends_of_i64(rt: HostRuntime) {
    let all = Interval::from((i64::MIN, i64::MAX));
    let none = Interval::from((i64::MAX, i64::MIN));
    assert_eq!(rt; all.dual(), none);
    assert_eq!(rt; none.dual(), all);
    assert!(rt; none.lies_in(all));
    assert!(rt; !all.lies_in(none));
    assert!(rt; all.lies_in(all));
    assert_eq!(rt; all.kind(), Kind::Spread);
    assert_eq!(rt; none.kind(), Kind::Trim);
    assert_eq!(rt; Interval::from((i64::MIN, i64::MIN)).kind(), Kind::Fixed);
    assert_eq!(rt; all.class(), Class::SpreadThroughZero);
    assert_eq!(rt; none.class(), Class::TrimThroughZero);
    assert_eq!(rt;
        Interval::from((i64::MAX, i64::MAX)).class(),
        Class::NonNegative
    );
    assert_eq!(rt;
        Interval::from((i64::MIN, i64::MIN)).class(),
        Class::NonPositive
    );
}

#[test]
fn numbers_within_5(rt: HostRuntime) {
    for n in [-5, -1, 0, 5] {
        assert_eq!(rt; Number::<5>::try_from(n), Ok(Number { value: n }));
    }
    for n in [-6, 6, i64::MIN, i64::MAX] {
        assert_eq!(rt; Number::<5>::try_from(n), Err(Refusal::OutsideLimit));
    }
}

#[test]
fn intervals_within_5(rt: HostRuntime) -> Result<(), Fail> {
    let x = Limited::<5>::try_from(Interval::from((2, -5)))?;
    assert_eq!(rt; Interval::from(x), Interval::from((2, -5)));
    assert_eq!(rt; Interval::from(x.dual()), Interval::from((-5, 2)));
    assert_eq!(rt; Interval::from(-x), Interval::from((5, -2)));
    for ends in [(6, 0), (0, 6), (-6, 0), (0, -6), (i64::MIN, i64::MAX)] {
        assert_eq!(rt;
            Limited::<5>::try_from(Interval::from(ends)),
            Err(Refusal::OutsideLimit)
        );
    }
    Ok(())
}

#[test]
fn every_byte_as_a_refusal(rt: HostRuntime) {
    let known = [
        (2, Refusal::NoSuchPlace),
        (3, Refusal::OutsideLimit),
        (5, Refusal::NotKept),
        (6, Refusal::PartsFull),
    ];
    // Every number of 8 bits.
    for n in 0..=u8::MAX {
        match known.iter().find(|(number, _)| *number == n) {
            Some((_, refusal)) => assert_eq!(rt; Refusal::try_from(n), Ok(*refusal)),
            None => assert_eq!(rt; Refusal::try_from(n), Err(NoSuchRefusal(n))),
        }
    }
}
