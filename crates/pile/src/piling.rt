// A pile, and what it takes and gives.
ghost use Rattle.std.specs.Prelude.{◌≡◌};
ghost use Rattle.pile.specs.Piles.{laid, handed};
ghost use Rattle.pile.specs.Laws.{bounded_laid, checks_handed, places_handed};

use crate::descent::{Put, Stack, put_at};
use interval::{Interval, Refusal};
use layer::Layer;
use system::{Held, PutFault, Sheet, System};

// The layers stand in the list with the topmost first, as the layers of a fault are counted.
#[derive(Drop)]
pub struct Pile<L, S> {
    bottom: S,
    layers: Vec<L>,
}

impl<L: Layer, S: System> System for Pile<L, S> {
    ghost meaning = { λ p. laid L.Layer.view p.layers.items (S.System.meaning p.bottom) };

    ghost bounded = { λ p. bounded_laid L.Layer.view L.Layer.lawful p.layers.items (S.System.meaning p.bottom) (S.System.bounded p.bottom) };

    #[tactic(auto, using(crate::proofs::Layers::laid_rows))]
    fn rows(&self) -> usize {
        self.bottom.rows()
    }

    #[tactic(auto, using(crate::proofs::Layers::laid_columns))]
    fn columns(&self) -> usize {
        self.bottom.columns()
    }

    fn reach(&self) -> u64 {
        self.stack().shape().reach
    }

    fn cell(&self, row: usize, column: usize) -> Result<Interval, Refusal> {
        self.stack().cell(row, column)
    }

    fn held(&self, column: usize) -> Result<Option<i64>, Refusal> {
        let landing = self.stack().landing(column);
        let number = self.bottom.held(landing.column)?;
        Ok(number.map(|number| landing.signed(number)))
    }
}

impl<L: Layer, S: Sheet> Sheet for Pile<L, S> {
    ghost refuses = { λ p. handed L.Layer.view p.layers.items (S.System.meaning p.bottom) (S.Sheet.refuses p.bottom) };

    ghost checks = { λ p. checks_handed L.Layer.view p.layers.items (S.System.meaning p.bottom) (S.Sheet.refuses p.bottom) (S.Sheet.checks p.bottom) };

    ghost places = { λ p. places_handed L.Layer.view p.layers.items (S.System.meaning p.bottom) (S.Sheet.refuses p.bottom) (S.Sheet.places p.bottom) };

    fn put(&mut self, row: usize, column: usize, value: Interval) -> Result<(), PutFault> {
        put_at(&self.layers, &mut self.bottom, Put { row, column, value })
    }

    // Refused before the way down, which asks layers for their reach; so in `free`.
    #[tactic(auto, using(crate::proofs::Layers::laid_columns))]
    fn hold(&mut self, column: usize, number: i64) -> Result<(), Refusal> {
        let stack = self.stack();
        stack.counts().column(column)?;
        Held::try_from(number)?;
        let landing = stack.landing(column);
        self.bottom.hold(landing.column, landing.signed(number))
    }

    #[tactic(auto, using(crate::proofs::Layers::laid_columns))]
    fn free(&mut self, column: usize) -> Result<(), Refusal> {
        let stack = self.stack();
        stack.counts().column(column)?;
        let landing = stack.landing(column);
        self.bottom.free(landing.column)
    }
}

impl<L: Layer, S: System> Pile<L, S> {
    fn stack(&self) -> Stack<'_, L, S>
        ensures { (result.layers.now ≡ self.now.layers.items) × (result.bottom.now ≡ self.now.bottom) }
    {
        Stack::new(&self.layers, &self.bottom)
    }
}
