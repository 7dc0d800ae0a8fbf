// When two systems, of any kinds, are the same.
ghost use Rattle.std.specs.Prelude.{◌≡◌, ◌<◌, Decides};
ghost use Rattle.system.specs.Comparison.{SameRow, Same};

use crate::reading::System;

// Whether the counts and all cells are equal; held numbers are not compared.
pub fn same<A: System, B: System>(a: &A, b: &B) -> bool
    ensures { Decides result (Same (A.System.meaning a.now) (B.System.meaning b.now)) }
{
    a.rows() == b.rows()
        && a.columns() == b.columns()
        && (0..a.rows()).all(|row| same_row(a, b, row))
}

fn same_row<A: System, B: System>(a: &A, b: &B, row: usize) -> bool
    requires place { row < (A.System.meaning a.now).rows }
    requires rows { (A.System.meaning a.now).rows ≡ (B.System.meaning b.now).rows }
    requires columns { (A.System.meaning a.now).columns ≡ (B.System.meaning b.now).columns }
    ensures { Decides result (SameRow (A.System.meaning a.now) (B.System.meaning b.now) row) }
{
    (0..a.columns()).all(|column| a.cell(row, column) == b.cell(row, column))
}
