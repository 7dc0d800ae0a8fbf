// Which check comes first: the place, then the limits, then the sheet's own rules.
use crate::making::{ONE, banded_sheet, fault, full_sheet};
use crate::parts::filled;
use interval::Interval;
use std::process::Abort;
use std::test::Fail;
use system::Sheet;

// Each of these places is outside 64 × 64.
fn check_place_first<S: Sheet>(rt: &impl Abort, sheet: &mut S) {
    for (row, column) in [(64, 3), (3, 64), (64, 64), (usize::MAX, usize::MAX)] {
        for end in [1, 100_001, 10_000_001, i64::MIN] {
            assert_eq!(rt;
                sheet.put(row, column, Interval::from((end, 0))),
                Err(fault(2, row, column))
            );
        }
    }
}

#[test]
fn the_place_comes_first(rt: HostRuntime) -> Result<(), Fail> {
    check_place_first(&rt, &mut full_sheet(rt.alloc(), 64, 64)?);
    check_place_first(&rt, &mut banded_sheet(rt.alloc(), 64, 64, 0)?);
    check_place_first(&rt, &mut filled()?);
    Ok(())
}

// `own` is the number of the sheet's own rule, which this place breaks.
fn check_limit_before<S: Sheet>(rt: &impl Abort, sheet: &mut S, own: u8) {
    for end in [100_001, 10_000_001] {
        assert_eq!(rt;
            sheet.put(30, 20, Interval::from((end, 0))),
            Err(fault(3, 30, 20))
        );
        assert_eq!(rt;
            sheet.put(30, 20, Interval::from((0, end))),
            Err(fault(3, 30, 20))
        );
    }
    assert_eq!(rt; sheet.put(30, 20, ONE), Err(fault(own, 30, 20)));
}

#[test]
fn the_limits_come_before_the_own_rules(rt: HostRuntime) -> Result<(), Fail> {
    check_limit_before(&rt, &mut banded_sheet(rt.alloc(), 64, 64, 8)?, 5);
    check_limit_before(&rt, &mut filled()?, 6);
    Ok(())
}
