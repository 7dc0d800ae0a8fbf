// When two sheets, of any kinds, are the same.
use crate::making::{NOUGHT, ONE, banded_sheet, full_sheet, parts_sheet};
use interval::Interval;
use std::process::Abort;
use std::test::Fail;
use system::{Sheet, System, same};

fn check_same<A: System, B: System>(rt: &impl Abort, a: &A, b: &B, expected: bool) {
    assert_eq!(rt; same(a, b), expected);
    assert_eq!(rt; same(b, a), expected);
    assert!(rt; same(a, a));
    assert!(rt; same(b, b));
}

// On four rows and five columns.
fn put_some<S: Sheet>(sheet: &mut S) -> Result<(), Fail> {
    sheet.put(0, 0, ONE)?;
    sheet.put(2, 1, Interval::from((-3, 4)))?;
    sheet.put(3, 4, Interval::from((7, -7)))?;
    Ok(())
}

#[test]
fn sheets_of_different_kinds_are_the_same_by_their_cells(rt: HostRuntime) -> Result<(), Fail> {
    let mut full = full_sheet(rt.alloc(), 4, 5)?;
    let mut banded = banded_sheet(rt.alloc(), 4, 5, 1)?;
    let mut parts = parts_sheet(4, 5)?;
    put_some(&mut full)?;
    put_some(&mut banded)?;
    put_some(&mut parts)?;
    full.hold(1, 6)?;
    banded.hold(1, -6)?;
    banded.hold(4, 0)?;
    check_same(&rt, &full, &banded, true);
    check_same(&rt, &banded, &parts, true);
    check_same(&rt, &parts, &full, true);
    Ok(())
}

// The other sheet is all (0, 0), so a value at one place makes the two differ.
fn check_one_cell<A: Sheet, B: System>(rt: &impl Abort, a: &mut A, b: &B) -> Result<(), Fail> {
    for (row, column) in [(3, 4), (3, 0), (0, 4), (0, 0)] {
        for value in [ONE, Interval::from((1, 0)), Interval::from((0, 1))] {
            a.put(row, column, value)?;
            check_same(rt, a, b, false);
        }
        a.put(row, column, NOUGHT)?;
        check_same(rt, a, b, true);
    }
    Ok(())
}

#[test]
fn one_cell_makes_sheets_differ(rt: HostRuntime) -> Result<(), Fail> {
    let mut full = full_sheet(rt.alloc(), 4, 5)?;
    let banded = banded_sheet(rt.alloc(), 4, 5, 1)?;
    let mut parts = parts_sheet(4, 5)?;
    check_one_cell(&rt, &mut full, &banded)?;
    check_one_cell(&rt, &mut parts, &full)
}

#[test]
fn different_counts_make_sheets_differ(rt: HostRuntime) -> Result<(), Fail> {
    let full = full_sheet(rt.alloc(), 4, 5)?;
    for (rows, columns) in [(3, 5), (5, 5), (4, 4), (4, 6), (5, 4), (64, 64)] {
        check_same(&rt, &full, &parts_sheet(rows, columns)?, false);
        check_same(
            &rt,
            &full,
            &banded_sheet(rt.alloc(), rows, columns, 8)?,
            false,
        );
    }
    check_same(&rt, &full, &parts_sheet(4, 5)?, true);
    Ok(())
}
