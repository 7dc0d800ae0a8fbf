// The parts sheet: 128 parts and no more, and slots that are used again. The loops run over the numbers of columns.
use crate::making::{NOUGHT, ONE, check_own, fault, parts_sheet, put_own};
use interval::Interval;
use sheets::Parts;
use std::process::Abort;
use std::test::Fail;
use system::{Sheet, System};

const FIRST: u8 = 0;

const LAST: u8 = 63;

fn fill_row(sheet: &mut Parts, row: u8) -> Result<(), Fail> {
    for column in 0..64 {
        put_own(sheet, row, column)?;
    }
    Ok(())
}

// A sheet with its 128 parts in the first row and the last.
pub(crate) fn filled() -> Result<Parts, Fail> {
    let mut sheet = parts_sheet(64, 64)?;
    fill_row(&mut sheet, FIRST)?;
    fill_row(&mut sheet, LAST)?;
    Ok(sheet)
}

// All parts of `filled` but the one in this row and column.
fn check_others(rt: &impl Abort, sheet: &Parts, row: u8, column: u8) {
    for r in [FIRST, LAST] {
        for c in 0..64 {
            if r != row || c != column {
                check_own(rt, sheet, r, c);
            }
        }
    }
}

fn check_full(rt: &impl Abort, sheet: &mut Parts) {
    assert_eq!(rt; sheet.put(30, 31, ONE), Err(fault(6, 30, 31)));
    assert_eq!(rt; sheet.cell(30, 31), Ok(NOUGHT));
}

#[test]
fn a_129th_part_is_refused(rt: HostRuntime) -> Result<(), Fail> {
    let mut sheet = filled()?;
    check_full(&rt, &mut sheet);
    check_own(&rt, &sheet, FIRST, 0);
    check_others(&rt, &sheet, FIRST, 0);
    Ok(())
}

// (1, 0) and (0, 1) are parts, and (0, 0) is none.
#[test]
fn a_full_sheet_takes_rewrites_and_noughts(rt: HostRuntime) -> Result<(), Fail> {
    let mut sheet = filled()?;
    for value in [Interval::from((1, 0)), Interval::from((0, 1)), ONE] {
        sheet.put(0, 7, value)?;
        assert_eq!(rt; sheet.cell(0, 7), Ok(value));
        check_full(&rt, &mut sheet);
    }
    sheet.put(30, 30, NOUGHT)?;
    assert_eq!(rt; sheet.cell(30, 30), Ok(NOUGHT));
    check_full(&rt, &mut sheet);
    check_others(&rt, &sheet, FIRST, 7);
    Ok(())
}

fn check_used_again(rt: &impl Abort, row: u8, column: u8) -> Result<(), Fail> {
    let mut sheet = filled()?;
    let (r, c) = (usize::from(row), usize::from(column));
    sheet.put(r, c, NOUGHT)?;
    assert_eq!(rt; sheet.cell(r, c), Ok(NOUGHT));
    sheet.put(30, 30, ONE)?;
    assert_eq!(rt; sheet.cell(30, 30), Ok(ONE));
    check_full(rt, &mut sheet);
    assert_eq!(rt; sheet.put(r, c, ONE), Err(fault(6, r, c)));
    check_others(rt, &sheet, row, column);
    Ok(())
}

// The first part that was put, one between, and the last.
#[test]
fn the_slot_of_a_part_taken_off_is_used_again(rt: HostRuntime) -> Result<(), Fail> {
    check_used_again(&rt, FIRST, 0)?;
    check_used_again(&rt, FIRST, 63)?;
    check_used_again(&rt, LAST, 63)
}

#[test]
fn noughts_and_rewrites_use_no_slot(rt: HostRuntime) -> Result<(), Fail> {
    let mut sheet = parts_sheet(64, 64)?;
    for column in 0..64 {
        sheet.put(5, column, NOUGHT)?;
    }
    fill_row(&mut sheet, FIRST)?;
    fill_row(&mut sheet, FIRST)?;
    fill_row(&mut sheet, LAST)?;
    check_full(&rt, &mut sheet);
    Ok(())
}

#[test]
fn sizing_takes_every_part_off(rt: HostRuntime) -> Result<(), Fail> {
    let mut sheet = filled()?;
    sheet.size(64, 64)?;
    fill_row(&mut sheet, 10)?;
    fill_row(&mut sheet, 20)?;
    check_full(&rt, &mut sheet);
    assert_eq!(rt; sheet.cell(0, 0), Ok(NOUGHT));
    assert_eq!(rt; sheet.cell(63, 63), Ok(NOUGHT));
    Ok(())
}
