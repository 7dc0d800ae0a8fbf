// The banded sheet: which cells it keeps. Rows and columns are asked by their numbers, so the loops run over numbers.
use crate::making::{NOUGHT, ONE, banded_sheet, check_own, fault, put_own};
use sheets::Banded;
use std::process::Abort;
use std::test::Fail;
use system::{Sheet, System};

// The sheet has 40 rows and 24 columns, so that the band leaves it below row 31.
const ROWS: u8 = 40;

const COLUMNS: u8 = 24;

fn kept(row: u8, column: u8, width: u8) -> bool {
    column.abs_diff(row) <= width || column == COLUMNS - 1
}

// A cell that is not kept refuses (0, 0) too.
fn check_not_kept(rt: &impl Abort, sheet: &mut Banded, row: u8, column: u8) {
    let (r, c) = (usize::from(row), usize::from(column));
    assert_eq!(rt; put_own(sheet, row, column), Err(fault(5, r, c)));
    assert_eq!(rt; sheet.put(r, c, NOUGHT), Err(fault(5, r, c)));
    assert_eq!(rt; sheet.cell(r, c), Ok(NOUGHT));
}

fn put_row(rt: &impl Abort, sheet: &mut Banded, row: u8, width: u8) -> Result<(), Fail> {
    for column in 0..COLUMNS {
        if kept(row, column, width) {
            put_own(sheet, row, column)?;
        } else {
            check_not_kept(rt, sheet, row, column);
        }
    }
    Ok(())
}

fn check_row(rt: &impl Abort, sheet: &Banded, row: u8, width: u8) {
    for column in 0..COLUMNS {
        if kept(row, column, width) {
            check_own(rt, sheet, row, column);
        }
    }
}

// All is put before it is read, so that two cells in one slot would show.
fn check_width(rt: &impl Abort, sheet: &mut Banded, width: u8) -> Result<(), Fail> {
    for row in 0..ROWS {
        put_row(rt, sheet, row, width)?;
    }
    for row in 0..ROWS {
        check_row(rt, sheet, row, width);
    }
    Ok(())
}

// Two tests of one check, since each name says what it tests.
#[test]
fn width_0_keeps_the_diagonal_and_the_last_column(rt: HostRuntime) -> Result<(), Fail> {
    check_width(&rt, &mut banded_sheet(rt.alloc(), 40, 24, 0)?, 0)
}

#[test]
fn width_8_keeps_8_columns_on_each_side_and_the_last(rt: HostRuntime) -> Result<(), Fail> {
    check_width(&rt, &mut banded_sheet(rt.alloc(), 40, 24, 8)?, 8)
}

#[test]
fn the_band_of_row_10_at_width_8_is_from_2_to_18(rt: HostRuntime) -> Result<(), Fail> {
    let mut sheet = banded_sheet(rt.alloc(), 40, 24, 8)?;
    assert_eq!(rt; sheet.put(10, 1, ONE), Err(fault(5, 10, 1)));
    sheet.put(10, 2, ONE)?;
    sheet.put(10, 18, ONE)?;
    assert_eq!(rt; sheet.put(10, 19, ONE), Err(fault(5, 10, 19)));
    assert_eq!(rt; sheet.put(10, 22, ONE), Err(fault(5, 10, 22)));
    sheet.put(10, 23, ONE)?;
    Ok(())
}

fn check_column(rt: &impl Abort, sheet: &mut Banded, column: u8) -> Result<(), Fail> {
    for row in 0..64 {
        put_own(sheet, row, column)?;
    }
    for row in 0..64 {
        check_own(rt, sheet, row, column);
    }
    Ok(())
}

// So a sheet of one column keeps everything.
#[test]
fn the_last_column_is_kept_for_every_row(rt: HostRuntime) -> Result<(), Fail> {
    check_column(&rt, &mut banded_sheet(rt.alloc(), 64, 64, 0)?, 63)?;
    check_column(&rt, &mut banded_sheet(rt.alloc(), 64, 1, 0)?, 0)
}
