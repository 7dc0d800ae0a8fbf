// A line of a script as a command.
use crate::reading::{Complaint, Words, split_word};
use interval::Interval;
use std::fmt;

#[derive(Clone, Copy, PartialEq, Eq, Debug)]
pub enum Command<'a> {
    New(SheetName),
    Size(Size),
    On(SheetName, Order),
    Same(SheetName, SheetName),
    Row(&'a str),
}

#[derive(Clone, Copy, PartialEq, Eq, Debug)]
pub enum SheetName {
    Full,
    Banded,
    Parts,
}

// What each sheet is told. One variant for two of them would need a second enum of names, and a conversion between the two.
#[derive(Clone, Copy, PartialEq, Eq, Debug)]
pub enum Size {
    Full {
        rows: usize,
        columns: usize,
    },
    Banded {
        rows: usize,
        columns: usize,
        width: usize,
    },
    Parts {
        rows: usize,
        columns: usize,
    },
}

// What is asked of a sheet of any kind. A row and a column are plain numbers, as the script has them: the sheet tells whether
// they are a place.
#[derive(Clone, Copy, PartialEq, Eq, Debug)]
pub enum Order {
    Put {
        row: usize,
        column: usize,
        value: Interval,
    },
    Hold {
        column: usize,
        number: i64,
    },
    Free {
        column: usize,
    },
    Cell {
        row: usize,
        column: usize,
    },
    Held {
        column: usize,
    },
    Show,
}

pub(crate) fn read_command(line: &str) -> Result<Command<'_>, Complaint<'_>> {
    let (first, rest) = split_word(line);
    match first {
        "row" => Ok(Command::Row(rest)),
        "same" => read_same(rest),
        _ => read_on(SheetName::try_from(first)?, rest),
    }
}

fn read_same(text: &str) -> Result<Command<'_>, Complaint<'_>> {
    let mut words = Words::new(text, "same SHEET SHEET");
    let command = Command::Same(words.sheet()?, words.sheet()?);
    words.end()?;
    Ok(command)
}

fn read_on(name: SheetName, text: &str) -> Result<Command<'_>, Complaint<'_>> {
    let (verb, rest) = split_word(text);
    match verb {
        "new" => {
            Words::new(rest, "SHEET new").end()?;
            Ok(Command::New(name))
        }
        "size" => Ok(Command::Size(read_size(name, rest)?)),
        _ => Ok(Command::On(name, read_order(verb, rest)?)),
    }
}

fn read_size(name: SheetName, text: &str) -> Result<Size, Complaint<'_>> {
    match name {
        SheetName::Full => {
            let mut words = Words::new(text, "full size ROWS COLUMNS");
            Ok(Size::Full {
                rows: words.place()?,
                columns: words.last_place()?,
            })
        }
        SheetName::Banded => {
            let mut words = Words::new(text, "banded size ROWS COLUMNS WIDTH");
            Ok(Size::Banded {
                rows: words.place()?,
                columns: words.place()?,
                width: words.last_place()?,
            })
        }
        SheetName::Parts => {
            let mut words = Words::new(text, "parts size ROWS COLUMNS");
            Ok(Size::Parts {
                rows: words.place()?,
                columns: words.last_place()?,
            })
        }
    }
}

fn read_order<'a>(verb: &str, text: &'a str) -> Result<Order, Complaint<'a>> {
    match verb {
        "put" => {
            let mut words = Words::new(text, "SHEET put ROW COLUMN (FIRST, SECOND)");
            Ok(Order::Put {
                row: words.place()?,
                column: words.place()?,
                value: words.interval()?,
            })
        }
        "hold" => {
            let mut words = Words::new(text, "SHEET hold COLUMN NUMBER");
            Ok(Order::Hold {
                column: words.place()?,
                number: words.last_number()?,
            })
        }
        "free" => Ok(Order::Free {
            column: Words::new(text, "SHEET free COLUMN").last_place()?,
        }),
        "cell" => {
            let mut words = Words::new(text, "SHEET cell ROW COLUMN");
            Ok(Order::Cell {
                row: words.place()?,
                column: words.last_place()?,
            })
        }
        "held" => Ok(Order::Held {
            column: Words::new(text, "SHEET held COLUMN").last_place()?,
        }),
        "show" => {
            Words::new(text, "SHEET show").end()?;
            Ok(Order::Show)
        }
        _ => Err(Complaint::Usage("SHEET new, size, put, hold, free, cell, held or show")),
    }
}

impl<'a> TryFrom<&'a str> for SheetName {
    type Error = Complaint<'a>;

    fn try_from(text: &'a str) -> Result<SheetName, Complaint<'a>> {
        match text {
            "full" => Ok(SheetName::Full),
            "banded" => Ok(SheetName::Banded),
            "parts" => Ok(SheetName::Parts),
            _ => Err(Complaint::Unknown(text)),
        }
    }
}

// Its own words, as each enum that is printed has.
impl fmt::Display for SheetName {
    fn fmt<W: fmt::Write>(&self, f: &mut fmt::Formatter<W>) -> fmt::Result {
        f.write_str(match self {
            SheetName::Full => "full",
            SheetName::Banded => "banded",
            SheetName::Parts => "parts",
        })
    }
}

// As the answer to the command begins.
impl fmt::Display for Size {
    fn fmt<W: fmt::Write>(&self, f: &mut fmt::Formatter<W>) -> fmt::Result {
        match self {
            Size::Full { rows, columns } => write!(f, "the full sheet is {rows} by {columns}"),
            Size::Banded {
                rows,
                columns,
                width,
            } => write!(
                f,
                "the banded sheet is {rows} by {columns} with width {width}"
            ),
            Size::Parts { rows, columns } => write!(f, "the parts sheet is {rows} by {columns}"),
        }
    }
}
