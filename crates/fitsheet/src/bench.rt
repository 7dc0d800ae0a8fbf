// The three sheets that a script works on, and the answers to its commands.
use crate::commands::{Command, Order, SheetName, Size};
use crate::rows::answer_row;
use crate::table::show;
use interval::Refusal;
use sheets::{Banded, Full, Parts};
use std::alloc::{AllocError, Global};
use std::io;
use system::{PutFault, Sheet, System, same};
use thiserror::Error;

// Why a command is not obeyed: a sheet refuses it, or its answer cannot be made or written.
#[derive(Debug, Drop, Error)]
pub enum Failure {
    #[error("refused ({}): {}", u8::from(*.0), .0)]
    Refused(#[from] Refusal),
    #[error("refused ({}): {}", .0.number, .0)]
    PutRefused(#[from] PutFault),
    #[error(transparent)]
    Io(#[from] io::Error),
}

// The sheets are of three types, and a function that hands one out as a `dyn` is refused by the gate. So whatever asks the
// sheet of a name is a `match` of three arms.
#[derive(Drop)]
pub struct Bench {
    full: Full,
    banded: Banded,
    parts: Parts,
}

impl Bench {
    pub(crate) fn new(heap: Global) -> Result<Bench, AllocError> {
        Ok(Bench {
            full: Full::new(heap)?,
            banded: Banded::new(heap)?,
            parts: Parts::new(),
        })
    }

    // Answers a command, also where a sheet refuses it.
    pub(crate) fn answer(&mut self, rt: &HostRuntime, command: Command<'_>) -> io::Result<()> {
        self.obey(rt, command).or_else(|failure| match failure {
            Failure::Io(error) => Err(error),
            refused => println!(rt; "  {refused}"),
        })
    }

    fn obey(&mut self, rt: &HostRuntime, command: Command<'_>) -> Result<(), Failure> {
        match command {
            Command::New(name) => {
                self.renew(rt.alloc(), name)?;
                println!(rt; "  the {name} sheet is new, with one row and one column")?;
            }
            Command::Size(size) => {
                self.size(size)?;
                println!(rt; "  {size}, every cell (0, 0) and every column free")?;
            }
            Command::On(SheetName::Full, order) => obey_order(rt, &mut self.full, order)?,
            Command::On(SheetName::Banded, order) => obey_order(rt, &mut self.banded, order)?,
            Command::On(SheetName::Parts, order) => obey_order(rt, &mut self.parts, order)?,
            Command::Same(a, b) => {
                if self.compare(a, b) {
                    println!(rt; "  the same: equal counts and equal cells")?;
                } else {
                    println!(rt; "  not the same: a count or a cell differs")?;
                }
            }
            Command::Row(text) => answer_row(rt, text)?,
        }
        Ok(())
    }

    fn size(&mut self, size: Size) -> Result<(), Refusal> {
        match size {
            Size::Full { rows, columns } => self.full.size(rows, columns),
            Size::Banded {
                rows,
                columns,
                width,
            } => self.banded.size_with_width(rows, columns, width),
            Size::Parts { rows, columns } => self.parts.size(rows, columns),
        }
    }

    fn renew(&mut self, heap: Global, name: SheetName) -> io::Result<()> {
        match name {
            SheetName::Full => self.full = Full::new(heap)?,
            SheetName::Banded => self.banded = Banded::new(heap)?,
            SheetName::Parts => self.parts = Parts::new(),
        }
        Ok(())
    }

    // `same` takes two types: the match here finds the second, and the one in `is_same` the first.
    fn compare(&self, a: SheetName, b: SheetName) -> bool {
        match b {
            SheetName::Full => self.is_same(a, &self.full),
            SheetName::Banded => self.is_same(a, &self.banded),
            SheetName::Parts => self.is_same(a, &self.parts),
        }
    }

    fn is_same<S: System>(&self, name: SheetName, other: &S) -> bool {
        match name {
            SheetName::Full => same(&self.full, other),
            SheetName::Banded => same(&self.banded, other),
            SheetName::Parts => same(&self.parts, other),
        }
    }
}

fn obey_order<S: Sheet>(rt: &HostRuntime, sheet: &mut S, order: Order) -> Result<(), Failure> {
    match order {
        Order::Put { row, column, value } => {
            sheet.put(row, column, value)?;
            let kind = value.kind();
            println!(rt; "  row {row}, column {column} is now {kind} {value}")?;
        }
        Order::Hold { column, number } => {
            sheet.hold(column, number)?;
            println!(rt; "  column {column} is now held at {number}")?;
        }
        Order::Free { column } => {
            sheet.free(column)?;
            println!(rt; "  column {column} is now free")?;
        }
        Order::Cell { row, column } => {
            let cell = sheet.cell(row, column)?;
            let kind = cell.kind();
            println!(rt; "  row {row}, column {column} is {kind} {cell}")?;
        }
        Order::Held { column } => match sheet.held(column)? {
            Some(number) => println!(rt; "  column {column} is held at {number}")?,
            None => println!(rt; "  column {column} is free")?,
        },
        Order::Show => show(rt, sheet)?,
    }
    Ok(())
}
