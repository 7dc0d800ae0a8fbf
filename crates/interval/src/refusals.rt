// Why a call is refused. Each refusal has a number, and a refused call changes nothing.
ghost use Rattle.std.specs.Prelude.{◌≡◌, Some};
ghost use Rattle.interval.specs.Refusals.{number_of, Numbered, text_of, no_such_text};

use std::error::Error;
use std::fmt;

#[derive(Clone, Copy, PartialEq, Eq, Debug)]
pub enum Refusal {
    NoSuchPlace = 2,
    OutsideLimit = 3,
    NotKept = 5,
    PartsFull = 6,
}

// A number that no refusal has.
#[derive(Clone, Copy, PartialEq, Eq, Debug)]
pub struct NoSuchRefusal(pub u8);

// The number that stands for the refusal in docs/refusals.md.
impl From<Refusal> for u8 {
    ghost from_gives = { λ e n. n ≡ number_of e };

    fn from(refusal: Refusal) -> u8 {
        refusal as u8
    }
}

// The refusal that has this number.
impl TryFrom<u8> for Refusal {
    type Error = NoSuchRefusal;

    ghost try_from_gives = { Numbered };

    fn try_from(number: u8) -> Result<Refusal, NoSuchRefusal> {
        match number {
            2 => Ok(Refusal::NoSuchPlace),
            3 => Ok(Refusal::OutsideLimit),
            5 => Ok(Refusal::NotKept),
            6 => Ok(Refusal::PartsFull),
            _ => Err(NoSuchRefusal(number)),
        }
    }
}

impl Error for Refusal {}

impl Error for NoSuchRefusal {}

// What is printed of either is written by hand, since its text is proved.
impl fmt::Display for NoSuchRefusal {
    ghost output = { λ e. Some (no_such_text e.0) };

    fn fmt<W: fmt::Write>(&self, f: &mut fmt::Formatter<W>) -> fmt::Result {
        write!(f, "no refusal has the number {}", self.0)
    }
}

impl fmt::Display for Refusal {
    ghost output = { λ e. Some (text_of e) };

    fn fmt<W: fmt::Write>(&self, f: &mut fmt::Formatter<W>) -> fmt::Result {
        f.write_str(match self {
            Refusal::NoSuchPlace => "there is no such row or column",
            Refusal::OutsideLimit => "a number is outside its limit",
            Refusal::NotKept => "the banded sheet does not keep that cell",
            Refusal::PartsFull => "the parts sheet is full",
        })
    }
}
