// A layer.
ghost use Rattle.std.specs.Prelude.{◌≡◌, Result};
ghost use Rattle.layer.specs.declared.settings.SettingFault.{SettingFault as Fault};
ghost use Rattle.layer.specs.Views.{Extent, View, Lawful};
ghost use Rattle.interval.specs.Refusals.{Gives};
ghost use Rattle.interval.specs.Limited.{interval_of};
ghost use Rattle.layer.specs.Shapes.{extent};

use crate::settings::SettingFault;
use crate::shapes::Shape;
use interval::{Interval, Refusal};
use system::InLimit;

// A value of such a type is the settings of a layer. `view` is what a layer with them shows of a system below it, by that
// system's counts and reach; settings that don't fit these act as they do at first.
// Each layer answers every call itself, also where it changes nothing: a body given here would be no plainer, since the promise
// is about each layer's own view, and of an unknown view it is not true. A row and a column are two numbers, as the
// system's: a `Place` would ask more of whoever asks.
pub trait Layer {
    ghost view: { Self → Extent → View };

    fn reach(&self, below: Shape) -> u64
        ensures { result ≡ (view self.now (extent below)).reach };

    // The row below that a row stands for.
    fn row(&self, below: Shape, row: usize) -> usize
        ensures { result ≡ (view self.now (extent below)).row row };

    // The column below that a column stands for.
    fn column(&self, below: Shape, column: usize) -> usize
        ensures { result ≡ (view self.now (extent below)).column column };

    // Whether a column shows a held number negated.
    fn negated(&self, below: Shape, column: usize) -> bool
        ensures { result ≡ (view self.now (extent below)).negated column };

    // What a row and a column show of the interval below.
    fn shown(&self, below: Shape, row: usize, column: usize, value: InLimit) -> Interval
        ensures { result ≡ (view self.now (extent below)).shown row column (interval_of value) };

    // What goes down of an interval that is put there, unless the layer's own rule refuses it.
    fn lowered(
        &self,
        below: Shape,
        row: usize,
        column: usize,
        value: InLimit,
    ) -> Result<InLimit, Refusal>
        ensures { Gives ((view self.now (extent below)).refusal row column (interval_of value)) (λ y. interval_of y ≡ (view self.now (extent below)).lowered row column (interval_of value)) result };

    ghost lawful: { (l : Self) (e : Extent) → Lawful e (view l e) };
}

// A layer whose settings can be changed. `changes` says what a change does over a system below.
pub trait Settable: Layer {
    type Change;

    ghost changes: { Self → Extent → Self.Change → Self → Result (Unit {0}) Fault → Type 0 };

    fn change(&mut self, below: Shape, change: Self::Change) -> Result<(), SettingFault>
        ensures { changes self.old (extent below) change self.new result };
}
