// Reads a script of commands on three sheets, and answers each line.
#![tactic(auto)]

mod bench;
mod commands;
mod reading;
mod rows;
mod table;

use bench::Bench;
use commands::read_command;
use std::fs::File;
use std::io::{BufRead, BufReader, ErrorKind, Read};
use std::{env, io};

fn main(rt: HostRuntime) -> io::Result<()> {
    answer_inputs(&rt)
}

// Each argument names a file, and `-` standard input, which is read too if there is no argument.
fn answer_inputs(rt: &HostRuntime) -> io::Result<()> {
    let mut bench = Bench::new(rt.alloc())?;
    let mut names = env::args(rt)?.skip(1).peekable();
    if names.peek().is_none() {
        return answer_lines(rt, &mut bench, rt.stdin());
    }
    for name in names {
        match name.as_str() {
            "-" => answer_lines(rt, &mut bench, rt.stdin())?,
            path => answer_lines(rt, &mut bench, open(rt, path)?)?,
        }
    }
    Ok(())
}

fn open(rt: &HostRuntime, name: &str) -> io::Result<File> {
    let file = File::open(rt, name);
    if file.is_err() {
        eprintln!(rt; "{name} cannot be opened")?;
    }
    file
}

fn answer_lines<R: Read + Drop>(rt: &HostRuntime, bench: &mut Bench, input: R) -> io::Result<()> {
    for (index, line) in BufReader::new(rt.alloc(), input)?
        .lines(rt.alloc())
        .enumerate()
    {
        let number = index.saturating_add(1);
        match line {
            Ok(text) => answer(rt, bench, number, text.as_str().trim())?,
            Err(e) if e.kind() == ErrorKind::InvalidData => println!(rt;
                "line {number}: this is not text"
            )?,
            Err(e) => return Err(e),
        }
    }
    Ok(())
}

fn answer(rt: &HostRuntime, bench: &mut Bench, number: usize, line: &str) -> io::Result<()> {
    if line.is_empty() || line.starts_with('#') {
        return Ok(());
    }
    println!(rt; "line {number}: {line}")?;
    match read_command(line) {
        Ok(command) => bench.answer(rt, command),
        Err(complaint) => println!(rt; "  not understood: {complaint}"),
    }
}
