ghost use Rattle.std.specs.Prelude.{◌<◌, length};

use code::{LEAST_COLUMNS, MOST_CHECKS, MOST_COLUMNS, Refusal, weight};
use picture::noun_for;
use std::fmt;

// Why no code of these column values and data columns is opened, by the values that a student wrote.
#[derive(Clone, Copy)]
pub(super) struct OpenReason<'a> {
    pub(super) refusal: Refusal,
    pub(super) values: &'a [u64],
    pub(super) numbers: &'a [usize],
}

impl fmt::Display for OpenReason<'_> {
    fn fmt<W: fmt::Write>(&self, f: &mut fmt::Formatter<W>) -> fmt::Result {
        let n = self.values.len();
        let k = self.numbers.len();
        match self.refusal {
            Refusal::ColumnCount => {
                let noun = noun_for(n, "column value", "column values");
                write!(
                    f,
                    "{n} {noun}, a code has {LEAST_COLUMNS} to {MOST_COLUMNS}"
                )
            }
            Refusal::OutOfBounds => write_counts(f, n, k),
            Refusal::DataColumn(i) if i < k => self.write_data_column(f, i),
            Refusal::ColumnValue(j) if j < n => {
                let value = self.values[j];
                write!(f, "value {value} needs a row that is not there")
            }
            Refusal::NotUnits => write_units(f, n.saturating_sub(k)),
            refusal => write!(f, "{refusal}"),
        }
    }
}

impl OpenReason<'_> {
    // The data column at the index is beyond the columns, or not above the one before.
    fn write_data_column<W: fmt::Write>(&self, f: &mut fmt::Formatter<W>, i: usize) -> fmt::Result
        requires { i < length self.now.numbers.now }
    {
        let n = self.values.len();
        let number = self.numbers[i];
        if number >= n {
            return write!(f, "data column {number} is not below {n}");
        }
        let before = self.numbers[i.saturating_sub(1)];
        write!(
            f,
            "data column {number} is not above {before}, the one before"
        )
    }
}

// Numbers of data columns that leave no code.
fn write_counts<W: fmt::Write>(f: &mut fmt::Formatter<W>, n: usize, k: usize) -> fmt::Result {
    if k == 0 {
        return f.write_str("no data column is named");
    }
    if k >= n {
        return write!(f, "{k} data columns of {n} leave no check column");
    }
    let noun = noun_for(k, "data column", "data columns");
    let checks = n - k;
    write!(
        f,
        "{n} columns with {k} {noun} leave {checks} check columns, at most {MOST_CHECKS}"
    )
}

// The units are the values of a column with a single one: 1, 2, 4 and so on, as many as there are rows.
fn write_units<W: fmt::Write>(f: &mut fmt::Formatter<W>, rows: usize) -> fmt::Result {
    if rows == 1 {
        return f.write_str("the check column does not hold 1");
    }
    f.write_str("the check columns do not hold ")?;
    for i in 0..rows {
        write!(f, "{}, ", weight(i))?;
    }
    f.write_str("each once")
}
