ghost use Rattle.std.specs.Prelude.{◌≡◌};
ghost use Rattle.script.specs.declared.fault.Fault.TheVariants.{Memory};

use crate::drawing::MOST_ROWS;
use picture::noun_for;
use std::alloc::{AllocError, AllocFailed};
use std::fmt;

// What is wrong with a line; a word that it names is the line's own.
#[derive(Debug, Clone, Copy)]
pub enum Fault<'a> {
    Memory,
    UnknownCommand(&'a str),
    NotNumber(&'a str),
    MissingNumber,
    MissingData,
    // a word that is none of the names that may stand in its place
    NotNamed { word: &'a str, names: &'static str },
    // one of these names is missing
    MissingName(&'static str),
    WordTooMany(&'a str),
    // a character of a drawn row that is neither 0, 1 nor blank
    NotBit(char),
    RowWidth { drawn: usize, above: usize },
    TooManyRows,
    // a line that has no place in the drawing that is open since that line
    InDrawing(usize),
}

// Both are written out, and not derived: clauses read which fault a failed allocation gives.
impl<'a> From<AllocError> for Fault<'a> {
    ghost from_gives = { λ _ r. r ≡ Memory };

    fn from(_e: AllocError) -> Fault<'a> {
        Fault::Memory
    }
}

impl<'a, T: Drop> From<AllocFailed<T>> for Fault<'a> {
    ghost from_gives = { λ _ r. r ≡ Memory };

    fn from(_e: AllocFailed<T>) -> Fault<'a> {
        Fault::Memory
    }
}

impl fmt::Display for Fault<'_> {
    fn fmt<W: fmt::Write>(&self, f: &mut fmt::Formatter<W>) -> fmt::Result {
        match self {
            Fault::Memory => f.write_str("there is no memory left"),
            Fault::UnknownCommand(word) => write!(f, "unknown command '{word}'"),
            Fault::NotNumber(word) => write!(f, "'{word}' is not a number"),
            Fault::MissingNumber => f.write_str("a number is missing"),
            Fault::MissingData => f.write_str("'data' and the data columns are missing"),
            Fault::NotNamed { word, names } => write!(f, "'{word}' is not {names}"),
            Fault::MissingName(names) => write!(f, "{names} is missing"),
            Fault::WordTooMany(word) => write!(f, "a word too many: '{word}'"),
            Fault::NotBit(c) => write!(f, "'{c}' in a row: a row has only 0 and 1"),
            Fault::RowWidth { drawn, above } => {
                let columns = noun_for(*drawn, "column", "columns");
                write!(
                    f,
                    "the row has {drawn} {columns}, the rows above have {above}"
                )
            }
            Fault::TooManyRows => write!(f, "a drawing has at most {MOST_ROWS} rows"),
            Fault::InDrawing(since) => {
                write!(
                    f,
                    "a drawing is open since line {since}: a row of 0 and 1 or 'data' is expected"
                )
            }
        }
    }
}
