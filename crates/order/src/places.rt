// A permutation of the numbers below a count.
ghost use Rattle.std.specs.Prelude.{◌≡◌, ℕ, ◌≤◌, ◌&&◌, ◌==◌, nat_lt};
ghost use Rattle.interval.specs.Refusals.{unless, Changes};
ghost use Rattle.system.specs.Reading.{max_count};
ghost use Rattle.order.specs.Places.{placed, swapped};

use interval::Refusal;
use system::MAX_COUNT;

// The place of each number; a number that is not below `count` is its own. A layer's settings take no memory from the heap,
// and are copied whole, as no list with a length is.
// Clauses speak of it by `place_of` of its fields: an `impl Model` needs a value by which proofs can tell two tables apart, and a
// permutation of all numbers is a function, of which none can.
#[derive(Clone, Copy)]
pub struct Places {
    at: [usize; MAX_COUNT],
    pub(crate) count: usize,
    // A type for such a count would be no plainer: the fact stands here and where one is made, and nowhere else.
    ghost few: { count ≤ max_count },
    ghost inside: { (k : ℕ) → nat_lt (placed at count k) count ≡ nat_lt k count },
    ghost apart: { (i j : ℕ) → (placed at count i == placed at count j) ≡ (i == j) },
}

impl Places {
    ghost use Rattle.order.specs.Tables.{place_of};

    // Each number in its own place.
    pub(crate) fn identity(count: usize) -> Places
        requires { count ≤ max_count }
        ensures count { result.count ≡ count }
        ensures places { (k : ℕ) → place_of result k ≡ k }
    {
        Places {
            at: std::array::from_fn(|k| k),
            count,
        }
    }

    pub(crate) fn place(&self, k: usize) -> usize
        ensures { result ≡ place_of self.now k }
    {
        if k < self.count { self.at[k] } else { k }
    }

    // Two of the numbers change places.
    pub(crate) fn exchange(&mut self, i: usize, j: usize) -> Result<(), Refusal>
        ensures count { self.new.count ≡ self.old.count }
        ensures places { Changes (unless (nat_lt i self.old.count && nat_lt j self.old.count) 2) (λ place k. place (swapped i j k)) (place_of self.old) (place_of self.new) result }
    {
        if i >= self.count || j >= self.count {
            return Err(Refusal::NoSuchPlace);
        }
        self.at.swap(i, j);
        Ok(())
    }
}
