// Kaucher's arithmetic. Each call takes numbers within ±1,000,000,000, refuses others, and answers both ends together,
// as a pair: a rule of the project.
ghost use Rattle.std.specs.Prelude.{◌≡◌, ◌&&◌};
ghost use Rattle.interval.specs.Refusals.{unless, Answers};
ghost use Rattle.interval.specs.Directed.{in_limit as in_limit_of, within as within_of};
ghost use Rattle.interval.specs.Arithmetic.{limit, ends, by_class, opposite as opposite_of, sum as sum_of, multiple as multiple_of, product as product_of};
ghost use Rattle.interval.specs.Laws.{SumLaws, MultipleLaws, ProductLaws};
ghost use Rattle.interval.specs.Examples.{Examples};

use crate::classes::Class;
use crate::directed::Interval;
use crate::operands::{Operand, Operands};
use crate::refusals::Refusal;

impl Interval {
    // The interval of the negatives.
    pub fn opposite(self) -> Result<(i64, i64), Refusal>
        ensures { Answers (unless (within_of limit self) 3) (ends (opposite_of self)) result }
    {
        let opposite = -Operands::try_from(self)?;
        Ok((opposite.first.value, opposite.second.value))
    }

    #[tactic(auto, using(crate::proofs::Laws::sum_laws))]
    pub fn sum(self, other: Interval) -> Result<(i64, i64), Refusal>
        ensures value { Answers (unless (within_of limit self && within_of limit other) 3) (ends (sum_of self other)) result }
        ensures laws { SumLaws }
    {
        let (x, y) = (Operands::try_from(self)?, Operands::try_from(other)?);
        Ok((x.first + y.first, x.second + y.second))
    }

    // The whole number `t` times the interval. A negative one makes the ends change places.
    #[tactic(auto, using(crate::proofs::Laws::multiple_laws))]
    pub fn multiple(self, t: i64) -> Result<(i64, i64), Refusal>
        ensures value { Answers (unless (in_limit_of limit t && within_of limit self) 3) (ends (multiple_of t self)) result }
        ensures laws { MultipleLaws }
    {
        let factor = Operand::try_from(t)?;
        let x = Operands::try_from(self)?;
        Ok(if t < 0 {
            (x.second * factor, x.first * factor)
        } else {
            (x.first * factor, x.second * factor)
        })
    }

    #[tactic(auto, using(crate::proofs::Laws::product_laws, crate::proofs::Laws::examples))]
    pub fn product(self, other: Interval) -> Result<(i64, i64), Refusal>
        ensures value { Answers (unless (within_of limit self && within_of limit other) 3) (ends (product_of self other)) result }
        ensures laws { ProductLaws }
        ensures examples { Examples }
    {
        let (x, y) = (Operands::try_from(self)?, Operands::try_from(other)?);
        Ok(product_by((self.class(), other.class()), x, y))
    }
}

// The sixteen cases of the two classes.
fn product_by(classes: (Class, Class), left: Operands, right: Operands) -> (i64, i64)
    ensures { result ≡ ends (by_class classes.0 classes.1 left.first.value left.second.value right.first.value right.second.value) }
{
    let (a, b) = (left.first, left.second);
    let (c, d) = (right.first, right.second);
    use Class::NonNegative as P;
    use Class::NonPositive as N;
    use Class::SpreadThroughZero as Z;
    use Class::TrimThroughZero as D;
    match classes {
        (P, P) => (a * c, b * d),
        (P, Z) => (b * c, b * d),
        (P, N) => (b * c, a * d),
        (P, D) => (a * c, a * d),
        (Z, P) => (a * d, b * d),
        (Z, Z) => ((a * d).min(b * c), (a * c).max(b * d)),
        (Z, N) => (b * c, a * c),
        (Z, D) => (0, 0),
        (N, P) => (a * d, b * c),
        (N, Z) => (a * d, a * c),
        (N, N) => (b * d, a * c),
        (N, D) => (b * d, b * c),
        (D, P) => (a * c, b * c),
        (D, Z) => (0, 0),
        (D, N) => (b * d, a * d),
        (D, D) => ((a * c).max(b * d), (a * d).min(b * c)),
    }
}
