// A sheet as a table: the held columns above, and a line for each row.
use std::alloc::{AllocError, Global};
use std::io;
use system::System;

// The names of the columns, what they are held at, or a row.
#[derive(Clone, Copy)]
enum Line {
    Names,
    Held,
    Row(usize),
}

// Each text is made twice, to be measured and to be printed, so that one is kept at a time, and not the whole table. What prints
// goes over the numbers by which a sheet is asked, and ends where a line cannot be written.
pub(crate) fn show<S: System>(rt: &HostRuntime, sheet: &S) -> io::Result<()> {
    let (rows, columns, reach) = (sheet.rows(), sheet.columns(), sheet.reach());
    println!(rt; "  rows: {rows}, columns: {columns}, reach: {reach}")?;
    let width = widest(rt.alloc(), sheet)?;
    print_line(rt, sheet, Line::Names, width)?;
    print_line(rt, sheet, Line::Held, width)?;
    for row in 0..rows {
        print_line(rt, sheet, Line::Row(row), width)?;
    }
    Ok(())
}

fn print_line<S: System>(rt: &HostRuntime, sheet: &S, line: Line, width: usize) -> io::Result<()> {
    match line {
        Line::Row(row) => print!(rt; "  row {row:2}")?,
        Line::Names | Line::Held => print!(rt; "        ")?,
    }
    for column in 0..sheet.columns() {
        let text = line.text(rt.alloc(), sheet, column)?;
        print!(rt; "  {text:>width$}")?;
    }
    println!(rt)
}

// The length of the longest text.
fn widest<S: System>(heap: Global, sheet: &S) -> Result<usize, AllocError> {
    let names = Line::Names.width(heap, sheet)?;
    let above = Line::Held.width(heap, sheet)?.max(names);
    (0..sheet.rows()).try_fold(
        above,
        |width, row| Ok(Line::Row(row).width(heap, sheet)?.max(width)),
    )
}

impl Line {
    fn width<S: System>(self, heap: Global, sheet: &S) -> Result<usize, AllocError> {
        (0..sheet.columns()).try_fold(
            0,
            |width, column| Ok(self.text(heap, sheet, column)?.len().max(width)),
        )
    }

    fn text<S: System>(self, heap: Global, sheet: &S, column: usize) -> Result<String, AllocError> {
        match self {
            Line::Names => format!(in heap; "column {column}"),
            Line::Held => held_text(heap, sheet, column),
            Line::Row(row) => cell_text(heap, sheet, row, column),
        }
    }
}

// A text, and not an `impl Display`, since it is padded as a whole.
fn cell_text<S: System>(
    heap: Global,
    sheet: &S,
    row: usize,
    column: usize,
) -> Result<String, AllocError> {
    match sheet.cell(row, column) {
        Ok(cell) => format!(in heap; "{} {cell}", cell.kind()),
        Err(_) => Ok(String::new(heap)),
    }
}

fn held_text<S: System>(heap: Global, sheet: &S, column: usize) -> Result<String, AllocError> {
    match sheet.held(column) {
        Ok(Some(number)) => format!(in heap; "held at {number}"),
        Ok(None) => format!(in heap; "free"),
        Err(_) => Ok(String::new(heap)),
    }
}
