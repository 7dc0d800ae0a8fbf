// What a put takes: ends within ±100,000, at the first end and at the second.
use crate::making::{ONE, banded_sheet, fault, full_sheet, parts_sheet};
use interval::Interval;
use std::process::Abort;
use std::test::Fail;
use system::{Sheet, System};

const TAKEN: [(i64, i64); 8] = [
    (100_000, 0),
    (0, 100_000),
    (-100_000, 0),
    (0, -100_000),
    (100_000, 100_000),
    (-100_000, -100_000),
    (100_000, -100_000),
    (-100_000, 100_000),
];

const BEYOND: [i64; 8] = [
    100_001,
    -100_001,
    10_000_000,
    -10_000_000,
    10_000_001,
    -10_000_001,
    i64::MIN,
    i64::MAX,
];

fn check_refused<S: Sheet>(rt: &impl Abort, sheet: &mut S, value: Interval) {
    assert_eq!(rt; sheet.put(1, 1, value), Err(fault(3, 1, 1)));
    assert_eq!(rt; sheet.cell(1, 1), Ok(ONE));
}

fn check_limits<S: Sheet>(rt: &impl Abort, sheet: &mut S) -> Result<(), Fail> {
    for ends in TAKEN {
        sheet.put(1, 1, Interval::from(ends))?;
        assert_eq!(rt; sheet.cell(1, 1), Ok(Interval::from(ends)));
    }
    sheet.put(1, 1, ONE)?;
    for end in BEYOND {
        check_refused(rt, sheet, Interval::from((end, 0)));
        check_refused(rt, sheet, Interval::from((0, end)));
        check_refused(rt, sheet, Interval::from((end, end)));
    }
    Ok(())
}

// One call for each kind of sheet, as in the other tests of all three.
#[test]
fn ends_up_to_the_reach_are_taken_and_no_others(rt: HostRuntime) -> Result<(), Fail> {
    check_limits(&rt, &mut full_sheet(rt.alloc(), 3, 3)?)?;
    check_limits(&rt, &mut banded_sheet(rt.alloc(), 3, 3, 0)?)?;
    check_limits(&rt, &mut parts_sheet(3, 3)?)
}
