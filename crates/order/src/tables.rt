// What an order shows, and how two rows or two columns are exchanged.
ghost use Rattle.std.specs.Prelude.{◌≡◌, ℕ};
ghost use Rattle.layer.specs.Settings.{Sets};
ghost use Rattle.layer.specs.Shapes.{extent};
ghost use Rattle.order.specs.Tables.{place_of, arrangement_of, as_they_are, fits_counts, acting_row, acting_column, arranged, exchange_refusal, exchanged, OrderLaws};
ghost use Rattle.order.specs.Laws.{lawful};

use crate::places::Places;
use interval::{Interval, Refusal};
use layer::{Layer, Settable, SettingFault, Shape};
use system::InLimit;

// The rows and the columns below that each stand for. Clauses are by `arrangement_of` of the fields, as those of places.
#[derive(Clone, Copy)]
pub struct Order {
    rows: Places,
    columns: Places,
}

// Exchanges two rows, or two columns.
#[derive(Clone, Copy, PartialEq, Eq, Debug)]
pub enum Exchange {
    Rows(usize, usize),
    Columns(usize, usize),
}

impl Order {
    // Rows and columns as they are below.
    pub fn new() -> Order
        ensures arrangement { arrangement_of result ≡ as_they_are }
        ensures laws { OrderLaws }
    {
        Order {
            rows: Places::identity(0),
            columns: Places::identity(0),
        }
    }

    // Whether the tables were made for these counts.
    fn fits(&self, below: Shape) -> bool
        ensures { result ≡ fits_counts (arrangement_of self.now) (extent below) }
    {
        self.rows.count == below.counts.rows && self.columns.count == below.counts.columns
    }

    // The tables as they act over a system of this shape.
    fn fitted(&self, below: Shape) -> Order
        ensures rows { result.rows.count ≡ below.counts.rows }
        ensures columns { result.columns.count ≡ below.counts.columns }
        ensures row { (r : ℕ) → place_of result.rows r ≡ acting_row (arrangement_of self.now) (extent below) r }
        ensures column { (c : ℕ) → place_of result.columns c ≡ acting_column (arrangement_of self.now) (extent below) c }
    {
        if self.fits(below) {
            *self
        } else {
            Order {
                rows: Places::identity(below.counts.rows),
                columns: Places::identity(below.counts.columns),
            }
        }
    }
}

impl Layer for Order {
    ghost view = { λ o. arranged (arrangement_of o) };

    ghost lawful = { lawful };

    fn reach(&self, below: Shape) -> u64 {
        below.reach
    }

    fn row(&self, below: Shape, row: usize) -> usize {
        if self.fits(below) {
            self.rows.place(row)
        } else {
            row
        }
    }

    fn column(&self, below: Shape, column: usize) -> usize {
        if self.fits(below) {
            self.columns.place(column)
        } else {
            column
        }
    }

    fn negated(&self, below: Shape, column: usize) -> bool {
        false
    }

    fn shown(&self, below: Shape, row: usize, column: usize, value: InLimit) -> Interval {
        value.into()
    }

    fn lowered(
        &self,
        below: Shape,
        row: usize,
        column: usize,
        value: InLimit,
    ) -> Result<InLimit, Refusal> {
        Ok(value)
    }
}

impl Settable for Order {
    type Change = Exchange;

    ghost changes = { λ o below change after r. Sets (exchange_refusal below change) (exchanged (arrangement_of o) below change) (arrangement_of o) (arrangement_of after) r };

    fn change(&mut self, below: Shape, change: Exchange) -> Result<(), SettingFault> {
        let mut next = self.fitted(below);
        match change {
            Exchange::Rows(i, j) => next.rows.exchange(i, j)?,
            Exchange::Columns(i, j) => next.columns.exchange(i, j)?,
        }
        // The tables are written whole.
        *self = next;
        Ok(())
    }
}
