// Making and sizing: counts from 1 to 64, widths from 0 to 8, and nothing left of what stood there.
use crate::making::{NOUGHT, ONE, banded_sheet, fault, full_sheet, parts_sheet};
use cells::Clear;
use interval::{Interval, Refusal};
use sheets::{Banded, Bottom, Full, Parts};
use std::process::Abort;
use std::test::Fail;
use system::{Sheet, System};

const BAD_COUNTS: [(usize, usize); 8] = [
    (0, 6),
    (65, 6),
    (5, 0),
    (5, 65),
    (0, 0),
    (65, 65),
    (usize::MAX, 6),
    (5, usize::MAX),
];

// Other answers than a put's are compared by these names.
#[test]
fn refusals_have_their_numbers(rt: HostRuntime) {
    assert_eq!(rt; u8::from(Refusal::NoSuchPlace), 2);
    assert_eq!(rt; u8::from(Refusal::OutsideLimit), 3);
    assert_eq!(rt; u8::from(Refusal::NotKept), 5);
    assert_eq!(rt; u8::from(Refusal::PartsFull), 6);
}

fn check_new<S: System>(rt: &impl Abort, sheet: &S) {
    assert_eq!(rt; sheet.rows(), 1);
    assert_eq!(rt; sheet.columns(), 1);
    assert_eq!(rt; sheet.reach(), 100_000);
    assert_eq!(rt; sheet.cell(0, 0), Ok(NOUGHT));
    assert_eq!(rt; sheet.held(0), Ok(None));
    assert_eq!(rt; sheet.cell(1, 0), Err(Refusal::NoSuchPlace));
    assert_eq!(rt; sheet.cell(0, 1), Err(Refusal::NoSuchPlace));
}

#[test]
fn a_new_bottom_is_one_by_one(rt: HostRuntime) -> Result<(), Fail> {
    check_new(&rt, &Full::new(rt.alloc())?);
    check_new(&rt, &Banded::new(rt.alloc())?);
    check_new(&rt, &Parts::new());
    Ok(())
}

fn check_largest<S: Sheet>(rt: &impl Abort, sheet: &mut S) -> Result<(), Fail> {
    assert_eq!(rt; sheet.rows(), 64);
    assert_eq!(rt; sheet.columns(), 64);
    sheet.put(63, 63, Interval::from((-5, 9)))?;
    assert_eq!(rt; sheet.cell(63, 63), Ok(Interval::from((-5, 9))));
    assert_eq!(rt; sheet.cell(64, 63), Err(Refusal::NoSuchPlace));
    assert_eq!(rt; sheet.cell(63, 64), Err(Refusal::NoSuchPlace));
    assert_eq!(rt; sheet.put(64, 63, ONE), Err(fault(2, 64, 63)));
    assert_eq!(rt; sheet.put(63, 64, ONE), Err(fault(2, 63, 64)));
    Ok(())
}

#[test]
fn every_bottom_takes_64_by_64(rt: HostRuntime) -> Result<(), Fail> {
    check_largest(&rt, &mut full_sheet(rt.alloc(), 64, 64)?)?;
    check_largest(&rt, &mut banded_sheet(rt.alloc(), 64, 64, 8)?)?;
    check_largest(&rt, &mut parts_sheet(64, 64)?)
}

// On five rows and six columns: a cell, and a held column.
fn mark<S: Sheet>(sheet: &mut S) -> Result<(), Fail> {
    sheet.put(3, 4, ONE)?;
    sheet.hold(5, -7)?;
    Ok(())
}

fn check_marked<S: System>(rt: &impl Abort, sheet: &S) {
    assert_eq!(rt; sheet.rows(), 5);
    assert_eq!(rt; sheet.columns(), 6);
    assert_eq!(rt; sheet.cell(3, 4), Ok(ONE));
    assert_eq!(rt; sheet.held(5), Ok(Some(-7)));
}

fn check_bad_counts<C: Clear>(rt: &impl Abort, sheet: &mut Bottom<C>) -> Result<(), Fail> {
    mark(sheet)?;
    for (rows, columns) in BAD_COUNTS {
        assert_eq!(rt; sheet.size(rows, columns), Err(Refusal::OutsideLimit));
        check_marked(rt, sheet);
    }
    Ok(())
}

#[test]
fn full_refuses_bad_counts_and_keeps_all(rt: HostRuntime) -> Result<(), Fail> {
    check_bad_counts(&rt, &mut full_sheet(rt.alloc(), 5, 6)?)
}

#[test]
fn parts_refuses_bad_counts_and_keeps_all(rt: HostRuntime) -> Result<(), Fail> {
    check_bad_counts(&rt, &mut parts_sheet(5, 6)?)
}

// The sheet has width 1, so that it keeps row 3, column 4, and not row 3, column 1.
fn check_refused(rt: &impl Abort, sheet: &mut Banded, rows: usize, columns: usize, width: usize) {
    assert_eq!(rt;
        sheet.size_with_width(rows, columns, width),
        Err(Refusal::OutsideLimit)
    );
    check_marked(rt, sheet);
    assert_eq!(rt; sheet.put(3, 1, ONE), Err(fault(5, 3, 1)));
}

#[test]
fn banded_refuses_bad_counts_and_widths_and_keeps_all(rt: HostRuntime) -> Result<(), Fail> {
    let mut sheet = banded_sheet(rt.alloc(), 5, 6, 1)?;
    mark(&mut sheet)?;
    for (rows, columns) in BAD_COUNTS {
        check_refused(&rt, &mut sheet, rows, columns, 8);
    }
    check_refused(&rt, &mut sheet, 5, 6, 9);
    check_refused(&rt, &mut sheet, 64, 64, 9);
    check_refused(&rt, &mut sheet, 65, 65, 9);
    check_refused(&rt, &mut sheet, 5, 6, usize::MAX);
    Ok(())
}

fn occupy<S: Sheet>(sheet: &mut S) -> Result<(), Fail> {
    sheet.put(0, 0, ONE)?;
    sheet.put(63, 63, ONE)?;
    sheet.hold(0, 7)?;
    sheet.hold(63, 7)?;
    Ok(())
}

fn check_blank<S: System>(rt: &impl Abort, sheet: &S) {
    assert_eq!(rt; sheet.cell(0, 0), Ok(NOUGHT));
    assert_eq!(rt; sheet.cell(63, 63), Ok(NOUGHT));
    assert_eq!(rt; sheet.held(0), Ok(None));
    assert_eq!(rt; sheet.held(63), Ok(None));
}

// The sheet has 64 rows and columns. Cells and held columns that a small sheet has no place for are gone too.
fn check_clears<C: Clear>(rt: &impl Abort, sheet: &mut Bottom<C>) -> Result<(), Fail> {
    occupy(sheet)?;
    sheet.size(1, 1)?;
    check_new(rt, sheet);
    sheet.size(64, 64)?;
    check_blank(rt, sheet);
    Ok(())
}

#[test]
fn sizing_clears_and_frees(rt: HostRuntime) -> Result<(), Fail> {
    check_clears(&rt, &mut full_sheet(rt.alloc(), 64, 64)?)?;
    check_clears(&rt, &mut parts_sheet(64, 64)?)?;
    // The same with a width; a closure for the one call that differs would be no plainer.
    let mut banded = banded_sheet(rt.alloc(), 64, 64, 8)?;
    occupy(&mut banded)?;
    banded.size_with_width(1, 1, 8)?;
    check_new(&rt, &banded);
    banded.size_with_width(64, 64, 8)?;
    check_blank(&rt, &banded);
    Ok(())
}
