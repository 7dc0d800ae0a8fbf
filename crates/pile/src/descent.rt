// The way down through the layers of a pile, the topmost first, and back.
ghost use Rattle.std.specs.Prelude.{◌≡◌, true, cond, [], ◌∷◌, neg_ℤ, MatchOption};
ghost use Rattle.interval.specs.Directed.{in_limit as in_limit_of, within as within_of};
ghost use Rattle.interval.specs.Limited.{interval_of};
ghost use Rattle.interval.specs.Refusals.{unless, Answers};
ghost use Rattle.system.specs.Reading.{max_held, max_reach, has_place};
ghost use Rattle.system.specs.Writing.{state, Puts};
ghost use Rattle.layer.specs.Views.{extent_of, own_refusal};
ghost use Rattle.layer.specs.Shapes.{extent};
ghost use Rattle.pile.specs.Piles.{laid, piled, landed, blank_of, lowered_by};

use interval::{Interval, Limited, Number, Refusal};
use layer::{Layer, Shape};
use system::{Counts, InLimit, PutFault, Sheet, System};

// Layers over a bottom, the topmost first, to be read.
#[derive(Drop)]
pub(crate) struct Stack<'a, L, S> {
    layers: &'a [L],
    bottom: &'a S,
}

// The bottom's column that a column stands for, and whether a number at which that is held is shown negated: the flag is a
// sign, and not whether there is a column.
#[derive(Clone, Copy)]
pub struct Landing {
    pub column: usize,
    pub negated: bool,
}

// What is put, and where: at the top as it was given, and below a layer as that hands it down.
#[derive(Clone, Copy)]
pub struct Put {
    pub row: usize,
    pub column: usize,
    pub value: Interval,
}

impl<'a, L: Layer, S: System> Stack<'a, L, S> {
    pub(crate) fn new(layers: &'a [L], bottom: &'a S) -> Stack<'a, L, S>
        ensures { (result.layers.now ≡ layers.now) × (result.bottom.now ≡ bottom.now) }
    {
        Stack { layers, bottom }
    }

    // The bottom's: no layer changes them.
    pub(crate) fn counts(&self) -> Counts
        ensures rows { result.rows ≡ (S.System.meaning self.now.bottom.now).rows }
        ensures columns { result.columns ≡ (S.System.meaning self.now.bottom.now).columns }
    {
        Counts {
            rows: self.bottom.rows(),
            columns: self.bottom.columns(),
        }
    }

    pub(crate) fn shape(&self) -> Shape
        ensures { extent result ≡ extent_of (laid L.Layer.view self.now.layers.now (S.System.meaning self.now.bottom.now)) }
    {
        let bottom = Shape {
            counts: self.counts(),
            reach: self.bottom.reach(),
        };
        self.layers.iter().rev().fold(
            bottom,
            |below, top| Shape {
                counts: below.counts,
                reach: top.reach(below),
            },
        )
    }

    // By recursion, since each layer needs the shape of what is below it on the way down, and shows the cell on the way back.
    pub(crate) fn cell(&self, row: usize, column: usize) -> Result<Interval, Refusal>
        ensures { let m = laid L.Layer.view self.now.layers.now (S.System.meaning self.now.bottom.now) in Answers (unless (has_place m row column) 2) (m.cell row column) result }
    {
        let Some((top, rest)) = self.split_first() else {
            return self.bottom.cell(row, column);
        };
        let below = rest.shape();
        let cell = rest.cell(top.row(below, row), top.column(below, column))?;
        Ok(top.shown(below, row, column, within_limit(cell)))
    }

    // By recursion, as `cell`.
    pub(crate) fn landing(&self, column: usize) -> Landing
        ensures { result ≡ landed L.Layer.view self.now.layers.now (S.System.meaning self.now.bottom.now) column }
    {
        let Some((top, rest)) = self.split_first() else {
            return Landing {
                column,
                negated: false,
            };
        };
        let below = rest.shape();
        let landing = rest.landing(top.column(below, column));
        Landing {
            column: landing.column,
            negated: top.negated(below, column) != landing.negated,
        }
    }

    // The topmost layer, and the stack under it.
    fn split_first(&self) -> Option<(&'a L, Stack<'a, L, S>)>
        ensures { MatchOption result (self.now.layers.now ≡ []) (λ p. (self.now.layers.now ≡ p.0.now ∷ p.1.layers.now) × (p.1.bottom.now ≡ self.now.bottom.now)) }
    {
        let (top, layers) = self.layers.split_first()?;
        Some((top, Stack::new(layers, self.bottom)))
    }
}

impl Landing {
    // A held number, passed on or negated. The one number that has no negative is outside the limit, and stays so.
    pub(crate) fn signed(self, number: i64) -> i64
        ensures size { in_limit_of max_held result ≡ in_limit_of max_held number }
        ensures value { in_limit_of max_held number ≡ true → result ≡ cond self.negated (neg_ℤ number) number }
    {
        if self.negated {
            number.saturating_neg()
        } else {
            number
        }
    }
}

// A cell that some system shows, which is within its reach: no check is made again.
fn within_limit(cell: Interval) -> InLimit
    requires { within_of max_reach cell ≡ true }
    ensures { interval_of result ≡ cell }
{
    Limited {
        first: Number { value: cell.first },
        second: Number { value: cell.second },
    }
}

// By recursion, since a fault is raised on the way back. The bottom is lent for writing, so no `Stack` holds the two together.
pub(crate) fn put_at<L: Layer, S: Sheet>(
    layers: &[L],
    bottom: &mut S,
    put: Put,
) -> Result<(), PutFault>
    ensures { Puts put.row put.column put.value (piled L.Layer.view layers.now (state (S.System.meaning bottom.old) (S.Sheet.refuses bottom.old))) (piled L.Layer.view layers.now (state (S.System.meaning bottom.new) (S.Sheet.refuses bottom.new))) result }
{
    let Some((top, rest)) = layers.split_first() else {
        return bottom.put(put.row, put.column, put.value);
    };
    let below = Stack::new(rest, bottom).shape();
    let lowered = lower(top, below, put);
    let lowered = lowered.map_err(|refusal| PutFault::at(refusal, put.row, put.column))?;
    put_at(rest, bottom, lowered).map_err(PutFault::raised)
}

// The checks that every sheet makes first, then the layer's own rule.
fn lower<L: Layer>(top: &L, below: Shape, put: Put) -> Result<Put, Refusal>
    ensures { Answers (own_refusal (L.Layer.view top.now (extent below)) (blank_of (extent below)) put.row put.column put.value) (lowered_by (L.Layer.view top.now (extent below)) put.row put.column put.value) result }
{
    let Put { row, column, value } = put;
    below.counts.place(row, column)?;
    let lowered = top.lowered(below, row, column, InLimit::try_from(value)?)?;
    Ok(Put {
        row: top.row(below, row),
        column: top.column(below, column),
        value: lowered.into(),
    })
}
