// Words, numbers and intervals as text.
use crate::commands::SheetName;
use interval::Interval;
use std::num::{IntErrorKind, ParseIntError};
use std::str::FromStr;
use thiserror::Error;

// Why a line is no command.
#[derive(Clone, Copy, PartialEq, Eq, Debug, Error)]
pub enum Complaint<'a> {
    #[error("'{0}' is neither row nor same nor a sheet (full, banded or parts)")]
    Unknown(&'a str),
    #[error("write {0}")]
    Usage(&'static str),
    #[error("'{0}' is not a whole number from 0 on")]
    NotAPlace(&'a str),
    #[error("'{0}' is not a whole number")]
    NotANumber(&'a str),
    #[error("'{0}' does not fit 64 bits")]
    TooLong(&'a str),
}

// What is still to be read of a command, and how the command is written.
#[derive(Debug, Drop)]
pub struct Words<'a> {
    text: &'a str,
    usage: &'static str,
}

impl<'a> Words<'a> {
    pub(crate) fn new(text: &'a str, usage: &'static str) -> Words<'a> {
        Words { text, usage }
    }

    pub(crate) fn sheet(&mut self) -> Result<SheetName, Complaint<'a>> {
        SheetName::try_from(self.word()).map_err(|_| Complaint::Usage(self.usage))
    }

    // A row, a column, a count or a width.
    pub(crate) fn place(&mut self) -> Result<usize, Complaint<'a>> {
        let word = self.word();
        self.integer(word, Complaint::NotAPlace(word))
    }

    pub(crate) fn last_place(&mut self) -> Result<usize, Complaint<'a>> {
        let place = self.place()?;
        self.end()?;
        Ok(place)
    }

    pub(crate) fn last_number(&mut self) -> Result<i64, Complaint<'a>> {
        let word = self.word();
        self.end()?;
        self.number_of(word)
    }

    // All that is left.
    pub(crate) fn number(&self) -> Result<i64, Complaint<'a>> {
        self.number_of(self.text)
    }

    // All that is left, as `(2, 3)`.
    pub(crate) fn interval(&self) -> Result<Interval, Complaint<'a>> {
        let (first, second) = split_ends(self.text).ok_or(Complaint::Usage(self.usage))?;
        Ok(Interval {
            first: self.number_of(first.trim())?,
            second: self.number_of(second.trim())?,
        })
    }

    pub(crate) fn end(&self) -> Result<(), Complaint<'a>> {
        if self.text.is_empty() {
            Ok(())
        } else {
            Err(Complaint::Usage(self.usage))
        }
    }

    fn word(&mut self) -> &'a str {
        let (word, rest) = split_word(self.text);
        self.text = rest;
        word
    }

    fn number_of(&self, text: &'a str) -> Result<i64, Complaint<'a>> {
        self.integer(text, Complaint::NotANumber(text))
    }

    // `misread` is what is said of a text that is no whole number. A `match`, since the check does not take a closure for `map_err`
    // that holds it.
    fn integer<N: FromStr<Err = ParseIntError>>(
        &self,
        text: &'a str,
        misread: Complaint<'a>,
    ) -> Result<N, Complaint<'a>> {
        match text.parse() {
            Ok(number) => Ok(number),
            Err(error) => Err(match error.kind() {
                IntErrorKind::Empty => Complaint::Usage(self.usage),
                IntErrorKind::PosOverflow | IntErrorKind::NegOverflow => Complaint::TooLong(text),
                _ => misread,
            }),
        }
    }
}

// The first word, and what follows it.
pub(crate) fn split_word(text: &str) -> (&str, &str) {
    match text.split_once(' ') {
        Some((first, rest)) => (first, rest.trim()),
        None => (text, ""),
    }
}

fn split_ends(text: &str) -> Option<(&str, &str)> {
    text.strip_prefix('(')?.strip_suffix(')')?.split_once(',')
}
