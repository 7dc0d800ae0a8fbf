// Counts from 1 to 64, and the places and columns in them.
use interval::Refusal;
use std::test::Fail;
use system::{Counts, Place};

#[test]
fn counts_are_from_1_to_64(rt: HostRuntime) {
    for (rows, columns) in [(1, 1), (1, 64), (64, 1), (64, 64)] {
        assert_eq!(rt; Counts::new(rows, columns), Ok(Counts { rows, columns }));
    }
    for (rows, columns) in [(0, 1), (1, 0), (65, 1), (1, 65), (usize::MAX, usize::MAX)] {
        assert_eq!(rt; Counts::new(rows, columns), Err(Refusal::OutsideLimit));
    }
}

// On two rows and three columns.
#[test]
fn places_and_columns_are_below_the_counts(rt: HostRuntime) -> Result<(), Fail> {
    let counts = Counts::new(2, 3)?;
    assert_eq!(rt; counts.place(0, 0), Ok(Place { row: 0, column: 0 }));
    assert_eq!(rt; counts.place(1, 2), Ok(Place { row: 1, column: 2 }));
    for (row, column) in [(2, 0), (0, 3), (2, 3), (usize::MAX, 0)] {
        assert_eq!(rt; counts.place(row, column), Err(Refusal::NoSuchPlace));
    }
    assert_eq!(rt; counts.column(2), Ok(2));
    assert_eq!(rt; counts.column(3), Err(Refusal::NoSuchPlace));
    Ok(())
}
