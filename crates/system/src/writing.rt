// A sheet to be written.
ghost use Rattle.std.specs.Prelude.{ℕ, Some, None, Option};
ghost use Rattle.interval.specs.declared.directed.Interval.{Interval as Cell};
ghost use Rattle.system.specs.declared.faults.PutFault.{PutFault as Fault};
ghost use Rattle.interval.specs.Refusals.{Changes};
ghost use Rattle.system.specs.Writing.{ChecksFirst, NamesPlace, Puts, hold_refusal, free_refusal, holding, state};

use crate::faults::PutFault;
use crate::reading::System;
use interval::{Interval, Refusal};

// `refuses` is the answer that each put would get now. An accepted put may change it, as a sheet fills up.
pub trait Sheet: System {
    ghost refuses: { Self → ℕ → ℕ → Cell → Option Fault };

    fn put(&mut self, row: usize, column: usize, value: Interval) -> Result<(), PutFault>
        ensures { Puts row column value (state (Self.System.meaning self.old) (refuses self.old)) (state (Self.System.meaning self.new) (refuses self.new)) result };

    fn hold(&mut self, column: usize, number: i64) -> Result<(), Refusal>
        ensures { Changes (hold_refusal (Self.System.meaning self.old) column number) (holding column (Some number)) (state (Self.System.meaning self.old) (refuses self.old)) (state (Self.System.meaning self.new) (refuses self.new)) result };

    // A column that is free already stays so.
    fn free(&mut self, column: usize) -> Result<(), Refusal>
        ensures { Changes (free_refusal (Self.System.meaning self.old) column) (holding column None) (state (Self.System.meaning self.old) (refuses self.old)) (state (Self.System.meaning self.new) (refuses self.new)) result };

    ghost checks: { (s : Self) → ChecksFirst (Self.System.meaning s) (refuses s) };

    ghost places: { (s : Self) → NamesPlace (refuses s) };
}
