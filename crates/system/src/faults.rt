// Why a put is refused, and where.
ghost use Rattle.std.specs.Prelude.{◌≡◌, Some};
ghost use Rattle.interval.specs.Refusals.{number_of};
ghost use Rattle.system.specs.Faults.{fault_at, raised as raised_of, fault_text};

use interval::Refusal;
use std::error::Error;
use std::fmt;

// The number of the refusal, the layer where it arose (0 is the topmost), and the place as that layer counts. These are plain
// numbers by a rule of the project: layers of any kind hand a fault up, and none has to know another's refusals.
#[derive(Clone, Copy, PartialEq, Eq, Debug)]
pub struct PutFault {
    pub number: u8,
    pub layer: u16,
    pub row: usize,
    pub column: usize,
}

impl PutFault {
    // The fault of a sheet that refuses by itself, and not for one below it: the row and the column as they were given.
    pub fn at(refusal: Refusal, row: usize, column: usize) -> PutFault
        ensures { result ≡ fault_at (number_of refusal) row column }
    {
        PutFault {
            number: refusal.into(),
            layer: 0,
            row,
            column,
        }
    }

    // The fault as a layer hands it up from the sheet below: one more layer, and 65,535 stays.
    pub fn raised(self) -> PutFault
        ensures { result ≡ raised_of self }
    {
        PutFault {
            layer: self.layer.saturating_add(1),
            ..self
        }
    }
}

impl Error for PutFault {}

// Written by hand, since the text is proved.
impl fmt::Display for PutFault {
    ghost output = { λ f. Some (fault_text f) };

    fn fmt<W: fmt::Write>(&self, f: &mut fmt::Formatter<W>) -> fmt::Result {
        let (layer, row, column) = (self.layer, self.row, self.column);
        match Refusal::try_from(self.number) {
            Ok(refusal) => write!(f, "{refusal} (layer {layer}, row {row}, column {column})"),
            Err(_) => write!(f, "layer {layer}, row {row}, column {column}"),
        }
    }
}
