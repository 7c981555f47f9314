ghost use Rattle.std.specs.Prelude.{◌≡◌, ◌++◌, map, IfOk, string_bytes};
ghost use Rattle.std.specs.List.{range_with_len};
ghost use Rattle.picture.specs.Marked.{mark, mark_cells, marked};

use crate::bits::bit_of;
use crate::matrix::{matrix_picture, matrix_width};
use crate::table::{Table, column_numbers};
use std::alloc::{AllocError, Global};

// What stands below column `j`: `^` where the pattern strikes it, and a dot elsewhere.
fn mark_of(pattern: u64, j: usize) -> char
    ensures { result ≡ mark pattern j }
{
    if bit_of(pattern, j) == 1 { '^' } else { '.' }
}

// The marks below so many columns.
fn marks(heap: Global, pattern: u64, count: usize) -> Result<Vec<char>, AllocError>
    ensures { IfOk result (λ v. v.items ≡ map (mark pattern) (range_with_len 0 count)) }
{
    (0..count).map(|j| mark_of(pattern, j)).collect(heap)
}

impl Table {
    // A line of the table: its label, and a mark for each column that the pattern strikes.
    fn mark_line(self, label: &str, pattern: u64, count: usize) -> Result<String, AllocError>
        ensures { IfOk result (λ t. string_bytes t ≡ label.now ++ mark_cells self.width pattern count 0) }
    {
        let marks = marks(self.heap, pattern, count)?;
        self.line(label, &marks)
    }
}

// The matrix as `matrix_picture` draws it, and below it the columns marked that the patterns p and q strike.
pub fn marked_picture(
    heap: Global,
    values: &[u64],
    data_columns: &[usize],
    rows: usize,
    p: u64,
    q: u64,
) -> Result<String, AllocError>
    ensures { IfOk result (λ t. string_bytes t ≡ marked values.now data_columns.now rows p q) }
{
    let matrix = matrix_picture(heap, values, data_columns, rows)?;
    let numbers = column_numbers(heap, values.len())?;
    let width = matrix_width(&numbers, values);
    let table = Table { heap, width };
    let first = table.mark_line("p     ", p, values.len())?;
    let second = table.mark_line("q     ", q, values.len())?;
    format!(in heap; "{matrix}\n{first}\n{second}")
}
