// The command `row`: for each column a cell and a factor, `(2, 3) at 2; (9, 5) at -1`, judged.
use crate::reading::{Complaint, Words};
use row::{Term, Verdict, Walk};
use std::io;

const USAGE: &str = "row (FIRST, SECOND) at FACTOR; (FIRST, SECOND) at FACTOR; and so on";

pub(crate) fn answer_row(rt: &HostRuntime, text: &str) -> io::Result<()> {
    let mut terms = Vec::new(rt.alloc());
    for (column, part) in text.split(';').enumerate() {
        match read_term(part.trim()) {
            Ok(term) => terms.push(term)?,
            Err(complaint) => return println!(rt; "  not understood: column {column}: {complaint}"),
        }
    }
    judge(rt, terms.as_slice())
}

fn read_term(text: &str) -> Result<Term, Complaint<'_>> {
    let (cell, factor) = text.split_once("at").ok_or(Complaint::Usage(USAGE))?;
    Ok(Term {
        cell: Words::new(cell.trim(), USAGE).interval()?,
        factor: Words::new(factor.trim(), USAGE).number()?,
    })
}

// A line for each column, and then the verdict.
fn judge(rt: &HostRuntime, terms: &[Term]) -> io::Result<()> {
    let walk = Walk::along(rt.alloc(), terms)?;
    for (column, (term, step)) in terms.iter().zip(walk.steps.iter()).enumerate() {
        let (factor, cell, kind) = (term.factor, term.cell, term.cell.kind());
        let (multiple, sum) = (step.multiple, step.sum);
        println!(rt;
            "  column {column}: {factor} times the {kind} cell {cell} is {multiple}; the sum is {sum}"
        )?;
    }
    match walk.end {
        Ok(sum) => println!(rt; "  {}", Verdict::of(sum)),
        Err(refusal) => {
            let (column, number) = (walk.steps.len(), u8::from(refusal));
            println!(rt; "  column {column}: refused ({number}): {refusal}")
        }
    }
}
