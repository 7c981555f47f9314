ghost use Rattle.std.specs.Prelude.{◌≡◌, ℕ, ◌≢◌, ◌-◌, ◌^◌, ◌<◌, ◌≤◌, true, false, length, slice_index, MatchOption, MatchResult};
ghost use Rattle.code.specs.Codes.{rows, Beside, Check, Covered, Narrow, Row, Shape};
ghost use Rattle.code.specs.Opening.{GoodColumns, Refused};
ghost use Rattle.code.specs.Shorts.{kept};

use crate::limits::{LEAST_COLUMNS, MOST_CHECKS, MOST_COLUMNS};
use crate::refusal::Refusal;
use crate::short::Short;
use crate::words::weight;

// Refuses numbers of columns and of data columns that no code has.
fn check_counts(values: &[u64], numbers: &[usize]) -> Result<(), Refusal>
    ensures { MatchResult result (λ _. Shape (length values.now) (length numbers.now)) (λ e. Refused values.now numbers.now e) }
{
    let n = values.len();
    let k = numbers.len();
    if n < LEAST_COLUMNS || n > MOST_COLUMNS {
        return Err(Refusal::ColumnCount);
    }
    if k < 1 || k >= n || n - k > MOST_CHECKS {
        return Err(Refusal::OutOfBounds);
    }
    Ok(())
}

// Refuses the first data column number not below n or not above the one before.
fn check_data_columns(values: &[u64], numbers: &[usize]) -> Result<(), Refusal>
    requires { Shape (length values.now) (length numbers.now) }
    ensures { MatchResult result (λ _. GoodColumns values.now numbers.now (length numbers.now)) (λ e. Refused values.now numbers.now e) }
{
    let n = values.len();
    let mut floor = 0;
    for (i, x) in numbers.iter().enumerate() {
        if *x >= n || *x < floor {
            return Err(Refusal::DataColumn(i));
        }
        floor = *x + 1;
    }
    Ok(())
}

// A matrix as it is handed in, with as many columns, data columns and rows as a code may have. Its data columns
// are columns, and rise.
#[derive(Clone, Copy)]
pub(crate) struct Drawn<'a> {
    // the value of each column
    values: &'a [u64],
    // the data columns
    numbers: &'a [usize],
    ghost shape: { Shape (length values.now) (length numbers.now) },
    ghost good: { GoodColumns values.now numbers.now (length numbers.now) },
}

impl<'a> Drawn<'a> {
    pub(crate) fn new(values: &'a [u64], numbers: &'a [usize]) -> Result<Drawn<'a>, Refusal>
        ensures { MatchResult result (λ d. (d.values.now ≡ values.now) × (d.numbers.now ≡ numbers.now)) (λ e. Refused values.now numbers.now e) }
    {
        check_counts(values, numbers)?;
        check_data_columns(values, numbers)?;
        Ok(Drawn { values, numbers })
    }

    // How many rows the columns that are not data columns make.
    fn rows(&self) -> usize
        ensures { result ≡ rows self.now.values.now self.now.numbers.now }
    {
        self.values.len() - self.numbers.len()
    }

    // Refuses the first column whose value needs a row that is not there.
    pub(crate) fn check_values(&self) -> Result<(), Refusal>
        ensures { MatchResult result (λ _. Narrow self.now.values.now self.now.numbers.now) (λ e. Refused self.now.values.now self.now.numbers.now e) }
    {
        let end = weight(self.rows());
        self.values
            .iter()
            .position(|v| *v >= end)
            .map_or(Ok(()), |j| Err(Refusal::ColumnValue(j)))
    }

    // A check column that holds the value.
    fn check_column(&self, value: u64) -> Option<usize>
        ensures { MatchOption result ((j : ℕ) → Check self.now.values.now self.now.numbers.now j → slice_index self.now.values.now j ≢ value)
            (λ j. Check self.now.values.now self.now.numbers.now j × (slice_index self.now.values.now j ≡ value)) }
    {
        self.values
            .iter()
            .enumerate()
            .position(|(j, v)| *v == value && !self.numbers.contains(&j))
    }

    // Whether every column is a data column or the check column of a row.
    fn covers(&self, checks: &[usize]) -> bool
        ensures yes { result ≡ true → Covered self.now.values.now self.now.numbers.now checks.now }
        ensures no { result ≡ false → Covered self.now.values.now self.now.numbers.now checks.now → ⊥ }
    {
        (0..self.values.len()).all(|j| self.numbers.contains(&j) || checks.contains(&j))
    }

    // The check column of each row. Refuses check columns that do not hold the units, each once.
    pub(crate) fn check_columns(&self) -> Result<Short<usize, MOST_CHECKS>, Refusal>
        requires { Narrow self.now.values.now self.now.numbers.now }
        ensures { MatchResult result
            (λ us. (length (kept us) ≡ rows self.now.values.now self.now.numbers.now)
            × ((i : ℕ) → i < length (kept us) → Row self.now.values.now self.now.numbers.now (kept us) i)
            × Covered self.now.values.now self.now.numbers.now (kept us))
            (λ e. Refused self.now.values.now self.now.numbers.now e) }
    {
        let mut checks = Short::new(0);
        for i in 0..self.rows() {
            let j = self.check_column(weight(i)).ok_or(Refusal::NotUnits)?;
            checks.push(j).unwrap();
        }
        if !self.covers(checks.as_slice()) {
            return Err(Refusal::NotUnits);
        }
        Ok(checks)
    }
}
