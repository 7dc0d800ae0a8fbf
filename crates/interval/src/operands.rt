// Numbers that one operation does not bring beyond 64 bits.
ghost use Rattle.std.specs.Prelude.{◌≡◌, ◌+ℤ◌, ◌*ℤ◌};

use crate::limited::Limited;
use crate::numbers::Number;
use std::ops::{Add, Mul};

const LIMIT: u32 = 1_000_000_000;

pub(crate) type Operand = Number<LIMIT>;

pub(crate) type Operands = Limited<LIMIT>;

impl Add for Operand {
    type Output = i64;

    ghost add_gives = { λ x y r. r ≡ x.value +ℤ y.value };

    fn add(self, other: Operand) -> i64 {
        self.value + other.value
    }
}

impl Mul for Operand {
    type Output = i64;

    ghost mul_gives = { λ x y r. r ≡ x.value *ℤ y.value };

    fn mul(self, other: Operand) -> i64 {
        self.value * other.value
    }
}
