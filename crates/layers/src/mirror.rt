// The mirror: in a marked column a cell shows its opposite, and a held number is negated.
ghost use Rattle.std.specs.Prelude.{◌≡◌, ℕ, ◌≤◌, false, cond};
ghost use Rattle.interval.specs.Arithmetic.{opposite as opposite_of};
ghost use Rattle.interval.specs.Limited.{interval_of};
ghost use Rattle.layer.specs.Settings.{Sets};
ghost use Rattle.layer.specs.Shapes.{extent};
ghost use Rattle.system.specs.Reading.{max_count};
ghost use Rattle.std.proofs.Common.{rules};

use interval::{Interval, Refusal};
use layer::{Layer, Settable, SettingFault, Shape};
use system::{InLimit, MAX_COUNT};

// The columns that are marked, and the count of columns that this was made for. A layer's settings take no memory from the heap,
// and are copied whole, as no list with a length is.
// Clauses speak of it by `marks_of` of its fields: an `impl Model` needs a value by which proofs can tell two mirrors apart, and
// which columns are marked is a function, of which none can.
#[derive(Clone, Copy)]
pub struct Mirror {
    marks: [bool; MAX_COUNT],
    columns: usize,
    // A type for such a count would be no plainer: the fact stands here and where one is made, and nowhere else.
    ghost few: { columns ≤ max_count },
}

// Marks a column, or takes its mark off: the flag is the mark itself, and no sign of whether there is a column.
#[derive(Clone, Copy, PartialEq, Eq, Debug)]
pub struct Mark {
    pub column: usize,
    pub marked: bool,
}

impl Mirror {
    ghost use Rattle.layers.specs.Mirror.{marks_of, no_marks, acts_marked, MirrorLaws};

    // No column is marked.
    pub fn new() -> Mirror
        ensures marks { marks_of result ≡ no_marks }
        ensures laws { MirrorLaws }
    {
        Mirror::unmarked(0)
    }

    // None of so many columns is marked.
    fn unmarked(columns: usize) -> Mirror
        requires { columns ≤ max_count }
        ensures columns { result.columns ≡ columns }
        ensures marked { (k : ℕ) → (marks_of result).marked k ≡ false }
    {
        Mirror {
            marks: [false; MAX_COUNT],
            columns,
        }
    }

    // Whether a column is marked, over a system of this shape.
    fn marked(&self, below: Shape, column: usize) -> bool
        ensures { result ≡ acts_marked (marks_of self.now) (extent below) column }
    {
        self.columns == below.counts.columns && column < self.columns && self.marks[column]
    }

    // A value as a column shows it, or as it goes down through the column.
    fn reflected(&self, below: Shape, column: usize, value: InLimit) -> InLimit
        ensures { interval_of result ≡ cond (acts_marked (marks_of self.now) (extent below) column) (opposite_of (interval_of value)) (interval_of value) }
    {
        if self.marked(below, column) {
            -value
        } else {
            value
        }
    }

    // The marks as they act over a system of this shape.
    fn fitted(&self, below: Shape) -> Mirror
        ensures columns { result.columns ≡ below.counts.columns }
        ensures marked { (k : ℕ) → (marks_of result).marked k ≡ acts_marked (marks_of self.now) (extent below) k }
    {
        if self.columns == below.counts.columns {
            *self
        } else {
            Mirror::unmarked(below.counts.columns)
        }
    }
}

impl Layer for Mirror {
    ghost use Rattle.layers.specs.Mirror.{marks_of, mirrored};

    ghost view = { λ m. mirrored (marks_of m) };

    ghost lawful = { Prim.search rules };

    fn reach(&self, below: Shape) -> u64 {
        below.reach
    }

    fn row(&self, below: Shape, row: usize) -> usize {
        row
    }

    fn column(&self, below: Shape, column: usize) -> usize {
        column
    }

    fn negated(&self, below: Shape, column: usize) -> bool {
        self.marked(below, column)
    }

    fn shown(&self, below: Shape, row: usize, column: usize, value: InLimit) -> Interval {
        self.reflected(below, column, value).into()
    }

    fn lowered(
        &self,
        below: Shape,
        row: usize,
        column: usize,
        value: InLimit,
    ) -> Result<InLimit, Refusal> {
        Ok(self.reflected(below, column, value))
    }
}

impl Settable for Mirror {
    ghost use Rattle.layers.specs.Mirror.{marks_of, mark_refusal, with_mark};

    type Change = Mark;

    ghost changes = { λ m below change after r. Sets (mark_refusal below change) (with_mark (marks_of m) below change) (marks_of m) (marks_of after) r };

    fn change(&mut self, below: Shape, change: Mark) -> Result<(), SettingFault> {
        let column = below.counts.column(change.column)?;
        *self = self.fitted(below);
        self.marks[column] = change.marked;
        Ok(())
    }
}
