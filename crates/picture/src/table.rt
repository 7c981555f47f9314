ghost use Rattle.std.specs.Prelude.{◌≡◌, ◌-◌, ◌^◌, ◌<◌, ◌∷◌, ◌++◌, ℕ, List, length, IfOk, string_bytes, codes, decimal};
ghost use Rattle.std.specs.Fmt.{format_spec};
ghost use Rattle.std.specs.List.{range_with_len, flat_map};
ghost use Rattle.picture.specs.Pictured.{number_line, widest};
ghost use Rattle.picture.specs.Shown.{Shows, Writes};

use std::alloc::{AllocError, Global};
use std::fmt::{Display, Write};

// A table that is drawn line by line: each cell is `width` characters wide.
#[derive(Clone, Copy)]
pub(crate) struct Table {
    pub(crate) heap: Global,
    pub(crate) width: usize,
}

impl Table {
    // A line of the table: its label, and a cell for each value, which stands at the right end, after a blank.
    // A label is six characters wide, as the longest one is, `column`.
    pub(crate) fn line<T: Display>(self, label: &str, cells: &[T]) -> Result<String, AllocError>
        ensures { (text : T → List ℕ) → Shows T.styled_output (format_spec 32 3 0 self.width (2 ^ 64 - 1)) text → IfOk result (λ t. string_bytes t ≡ label.now ++ flat_map (λ x. 32 ∷ text x) cells.now) }
    {
        let width = self.width;
        let mut line = String::from_str(self.heap, label)?;
        for cell in cells {
            write!(line, " {cell:>width$}")?;
        }
        Ok(line)
    }

    // The line of the column numbers, and below it the lines of the places from 0 up to `count`.
    pub(crate) fn lines<F: Fn(usize) -> Result<String, AllocError> + Drop>(
        self,
        numbers: &[u64],
        count: usize,
        line: F,
    ) -> Result<String, AllocError>
        requires { (i : ℕ) → i < count → F.pre line i }
        ensures { (text : ℕ → List ℕ) → Writes (F.post line) text → IfOk result (λ t. string_bytes t ≡ number_line (codes "column") self.width numbers.now ++ flat_map (λ i. 10 ∷ text i) (range_with_len 0 count)) }
    {
        let mut text = self.line("column", numbers)?;
        for i in 0..count {
            let next = line(i)?;
            write!(text, "\n{next}")?;
        }
        Ok(text)
    }
}

// The numbers of so many columns, from 0 on.
pub(crate) fn column_numbers(heap: Global, count: usize) -> Result<Vec<u64>, AllocError>
    ensures { IfOk result (λ v. v.items ≡ range_with_len 0 count) }
{
    (0..count).map(|j| j as u64).collect(heap)
}

// How many digits a number has in decimal.
fn digit_count(number: u64) -> usize
    ensures { result ≡ length (decimal number) }
{
    number.checked_ilog10().unwrap_or(0) as usize + 1
}

// How many digits the widest of the numbers has.
pub(crate) fn widest_of(numbers: &[u64]) -> usize
    ensures { result ≡ widest numbers.now }
{
    numbers.iter().map(|n| digit_count(*n)).max().unwrap_or(0)
}
