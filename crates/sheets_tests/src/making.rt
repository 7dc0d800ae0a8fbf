// The sheets that the tests make, and what they put on them.
use cells::Clear;
use interval::Interval;
use sheets::{Banded, Bottom, Full, Parts};
use std::alloc::Global;
use std::process::Abort;
use std::test::Fail;
use system::{PutFault, Sheet, System};

pub(crate) const NOUGHT: Interval = Interval::NOUGHT;

pub(crate) const ONE: Interval = Interval {
    first: 1,
    second: 1,
};

// The fault of a bottom, by the number that is expected.
pub(crate) fn fault(number: u8, row: usize, column: usize) -> PutFault {
    PutFault {
        number,
        layer: 0,
        row,
        column,
    }
}

fn sized<C: Clear + Drop>(
    mut sheet: Bottom<C>,
    rows: usize,
    columns: usize,
) -> Result<Bottom<C>, Fail> {
    sheet.size(rows, columns)?;
    Ok(sheet)
}

pub(crate) fn full_sheet(heap: Global, rows: usize, columns: usize) -> Result<Full, Fail> {
    sized(Full::new(heap)?, rows, columns)
}

pub(crate) fn parts_sheet(rows: usize, columns: usize) -> Result<Parts, Fail> {
    sized(Parts::new(), rows, columns)
}

pub(crate) fn banded_sheet(
    heap: Global,
    rows: usize,
    columns: usize,
    width: usize,
) -> Result<Banded, Fail> {
    let mut sheet = Banded::new(heap)?;
    sheet.size_with_width(rows, columns, width)?;
    Ok(sheet)
}

// A value that no other place has, and not (0, 0).
pub(crate) fn own_value(row: u8, column: u8) -> Interval {
    Interval::from((i64::from(row), i64::from(column) + 1))
}

pub(crate) fn put_own<S: Sheet>(sheet: &mut S, row: u8, column: u8) -> Result<(), PutFault> {
    sheet.put(
        usize::from(row),
        usize::from(column),
        own_value(row, column),
    )
}

pub(crate) fn check_own<S: System>(rt: &impl Abort, sheet: &S, row: u8, column: u8) {
    assert_eq!(rt;
        sheet.cell(usize::from(row), usize::from(column)),
        Ok(own_value(row, column)),
        "row {row}, column {column}"
    );
}
