// What a layer knows of the system below it: its counts and its reach.
ghost use Rattle.std.specs.Prelude.{◌≤◌};
ghost use Rattle.system.specs.Reading.{max_reach};

use system::Counts;

#[derive(Clone, Copy, PartialEq, Eq, Debug)]
pub struct Shape {
    pub counts: Counts,
    pub reach: u64,
    ghost small_reach: { reach ≤ max_reach },
}
