// Holding and freeing columns: numbers within ±1,000.
use crate::making::{banded_sheet, full_sheet, parts_sheet};
use cells::Clear;
use interval::Refusal;
use sheets::Bottom;
use std::process::Abort;
use std::test::Fail;
use system::{Sheet, System};

// The sheets have two rows and three columns.
fn check_columns<S: Sheet>(rt: &impl Abort, sheet: &mut S) -> Result<(), Fail> {
    for column in [3, 64, usize::MAX] {
        assert_eq!(rt; sheet.hold(column, 1), Err(Refusal::NoSuchPlace));
        assert_eq!(rt; sheet.hold(column, 1001), Err(Refusal::NoSuchPlace));
        assert_eq!(rt; sheet.free(column), Err(Refusal::NoSuchPlace));
        assert_eq!(rt; sheet.held(column), Err(Refusal::NoSuchPlace));
    }
    sheet.hold(2, 1)?;
    sheet.free(2)?;
    check_held(rt, sheet, [None, None, None]);
    Ok(())
}

fn check_held<S: System>(rt: &impl Abort, sheet: &S, held: [Option<i64>; 3]) {
    for (column, number) in held.iter().enumerate() {
        assert_eq!(rt; sheet.held(column), Ok(*number));
    }
}

fn check_numbers<S: Sheet>(rt: &impl Abort, sheet: &mut S) -> Result<(), Fail> {
    sheet.hold(1, 1000)?;
    check_held(rt, sheet, [None, Some(1000), None]);
    sheet.hold(1, -1000)?;
    check_held(rt, sheet, [None, Some(-1000), None]);
    for number in [1001, -1001, i64::MIN, i64::MAX] {
        assert_eq!(rt; sheet.hold(1, number), Err(Refusal::OutsideLimit));
        assert_eq!(rt; sheet.hold(2, number), Err(Refusal::OutsideLimit));
        check_held(rt, sheet, [None, Some(-1000), None]);
    }
    Ok(())
}

// A column held at 0 is not free, and a free column may be freed.
fn check_freeing<S: Sheet>(rt: &impl Abort, sheet: &mut S) -> Result<(), Fail> {
    sheet.hold(0, 0)?;
    sheet.hold(2, 5)?;
    check_held(rt, sheet, [Some(0), Some(-1000), Some(5)]);
    sheet.free(1)?;
    check_held(rt, sheet, [Some(0), None, Some(5)]);
    sheet.free(1)?;
    check_held(rt, sheet, [Some(0), None, Some(5)]);
    Ok(())
}

fn check_holding<S: Sheet>(rt: &impl Abort, sheet: &mut S) -> Result<(), Fail> {
    check_columns(rt, sheet)?;
    check_numbers(rt, sheet)?;
    check_freeing(rt, sheet)
}

fn check_freed_by_sizing<C: Clear>(rt: &impl Abort, sheet: &mut Bottom<C>) -> Result<(), Fail> {
    check_holding(rt, sheet)?;
    sheet.size(2, 3)?;
    check_held(rt, sheet, [None, None, None]);
    Ok(())
}

#[test]
fn a_full_sheet_holds_and_frees(rt: HostRuntime) -> Result<(), Fail> {
    check_freed_by_sizing(&rt, &mut full_sheet(rt.alloc(), 2, 3)?)
}

#[test]
fn a_parts_sheet_holds_and_frees(rt: HostRuntime) -> Result<(), Fail> {
    check_freed_by_sizing(&rt, &mut parts_sheet(2, 3)?)
}

// The same with a width; a closure for the one call that differs would be no plainer.
#[test]
fn a_banded_sheet_holds_and_frees(rt: HostRuntime) -> Result<(), Fail> {
    let mut sheet = banded_sheet(rt.alloc(), 2, 3, 0)?;
    check_holding(&rt, &mut sheet)?;
    sheet.size_with_width(2, 3, 0)?;
    check_held(&rt, &sheet, [None, None, None]);
    Ok(())
}
