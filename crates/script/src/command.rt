use crate::comment::without_comment;
use crate::fault::Fault;
use crate::kind::Kind;
use crate::numeral::number;
use design::Duty;
use listings::Item;
use std::alloc::Global;
use std::str::{FromStr, SplitWhitespace};

// What is read from one of some names.
trait Named: FromStr {
    // the names, as a fault lists them
    const NAMES: &'static str;
}

impl Named for Duty {
    const NAMES: &'static str = "'correct' or 'detect'";
}

impl Named for Kind {
    const NAMES: &'static str = "'random', 'burst' or 'mask'";
}

// What a line asks for.
#[derive(Drop)]
pub enum Command {
    // a blank line, or one with a comment alone
    Nothing,
    // a drawing begins
    Matrix,
    // a code from its column values and its data columns
    Open {
        values: Vec<u64>,
        numbers: Vec<usize>,
    },
    Show,
    Encode(u64),
    Syndrome(u64),
    // the data bits of a word
    Data(u64),
    // an item is named for a duty
    Name(Duty, Item),
    // both classes of errors
    Classes,
    // the first patterns for a duty, at most so many
    Patterns(Duty, usize),
    // whether a mask is one of the patterns for a duty
    Belongs(Duty, u64),
    // the verdict on the design
    Judge,
    // what the errors to correct make of a received word
    Decode(u64),
    // the decoding table
    Table,
}

// What a line says while a drawing is open.
#[derive(Drop)]
pub enum Stroke<'a> {
    Nothing,
    // a row of the matrix
    Row(&'a str),
    // the data columns: the drawing ends
    Data(Vec<usize>),
}

fn no_more<'a>(mut words: SplitWhitespace<'a>) -> Result<(), Fault<'a>> {
    words
        .next()
        .map_or(Ok(()), |word| Err(Fault::WordTooMany(word)))
}

// The one number that is left on the line.
fn only_number<'a>(mut words: SplitWhitespace<'a>) -> Result<u64, Fault<'a>> {
    let n = number(words.next().ok_or(Fault::MissingNumber)?)?;
    no_more(words)?;
    Ok(n)
}

// One of the names, and the one number that is left on the line.
fn name_and_number<'a, T: Named + Drop>(
    mut words: SplitWhitespace<'a>,
) -> Result<(T, u64), Fault<'a>>
where
    T::Err: Drop,
{
    let names = T::NAMES;
    let word = words.next().ok_or(Fault::MissingName(names))?;
    let name = word.parse().map_err(|_| Fault::NotNamed { word, names })?;
    Ok((name, only_number(words)?))
}

// The column numbers that are left on the line.
fn column_numbers<'a>(heap: Global, words: SplitWhitespace<'a>) -> Result<Vec<usize>, Fault<'a>> {
    words
        .map(|word| number(word).map(|n| n as usize))
        .try_collect(heap)
}

// The column values, then the word `data`, then the data columns. A loop, since a `take_while` would not tell a
// `data` that is missing from the end of the line.
fn code_command<'a>(heap: Global, mut words: SplitWhitespace<'a>) -> Result<Command, Fault<'a>> {
    let mut values = Vec::new(heap);
    while let Some(word) = words.next() {
        if word == "data" {
            let numbers = column_numbers(heap, words)?;
            return Ok(Command::Open { values, numbers });
        }
        values.push(number(word)?)?;
    }
    Err(Fault::MissingData)
}

// A kind of error and its number, to be named for the duty.
fn name_command<'a>(duty: Duty, words: SplitWhitespace<'a>) -> Result<Command, Fault<'a>> {
    let (kind, n): (Kind, u64) = name_and_number(words)?;
    Ok(Command::Name(duty, kind.item(n)))
}

// A command of one word.
fn alone<'a>(command: Command, words: SplitWhitespace<'a>) -> Result<Command, Fault<'a>> {
    no_more(words)?;
    Ok(command)
}

// Reads a line while no drawing is open. The words are a closed list, each with a rest of its own, so a match and
// no table says them.
pub(crate) fn read_command(heap: Global, line: &str) -> Result<Command, Fault<'_>> {
    let mut words = without_comment(line).split_whitespace();
    let Some(first) = words.next() else {
        return Ok(Command::Nothing);
    };
    match first {
        "code" => code_command(heap, words),
        "encode" => only_number(words).map(Command::Encode),
        "syndrome" => only_number(words).map(Command::Syndrome),
        "data" => only_number(words).map(Command::Data),
        "decode" => only_number(words).map(Command::Decode),
        "correct" => name_command(Duty::Correct, words),
        "detect" => name_command(Duty::Detect, words),
        "list" => name_and_number(words).map(|(duty, limit)| Command::Patterns(
            duty,
            limit as usize,
        )),
        "belongs" => { name_and_number(words).map(|(duty, mask)| Command::Belongs(duty, mask)) }
        "matrix" => alone(Command::Matrix, words),
        "show" => alone(Command::Show, words),
        "classes" => alone(Command::Classes, words),
        "judge" => alone(Command::Judge, words),
        "table" => alone(Command::Table, words),
        _ => Err(Fault::UnknownCommand(first)),
    }
}

// Reads a line of the drawing that is open since the line `since`. A line that begins with a digit is
// meant as a row.
pub(crate) fn read_stroke(heap: Global, since: usize, line: &str) -> Result<Stroke<'_>, Fault<'_>> {
    let text = without_comment(line);
    let mut words = text.split_whitespace();
    let Some(first) = words.next() else {
        return Ok(Stroke::Nothing);
    };
    if first == "data" {
        return Ok(Stroke::Data(column_numbers(heap, words)?));
    }
    if first.starts_with(|c: char| c.is_ascii_digit()) {
        Ok(Stroke::Row(text))
    } else {
        Err(Fault::InDrawing(since))
    }
}
