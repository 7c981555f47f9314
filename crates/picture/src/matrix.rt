ghost use Rattle.std.specs.Prelude.{◌≡◌, ◌++◌, max, map, IfOk, string_bytes, codes, decimal};
ghost use Rattle.std.specs.List.{range_with_len};
ghost use Rattle.picture.specs.Pictured.{letter, number_line, pictured, row_of, widest};

use crate::bits::bit_of;
use crate::table::{Table, column_numbers, widest_of};
use std::alloc::{AllocError, Global};

// `d` for a data column, and `c` for a check column.
fn kind_of(data_columns: &[usize], j: usize) -> char
    ensures { result ≡ letter data_columns.now j }
{
    if data_columns.contains(&j) { 'd' } else { 'c' }
}

// The kinds of so many columns.
fn kinds(heap: Global, data_columns: &[usize], count: usize) -> Result<Vec<char>, AllocError>
    ensures { IfOk result (λ v. v.items ≡ map (letter data_columns.now) (range_with_len 0 count)) }
{
    (0..count).map(|j| kind_of(data_columns, j)).collect(heap)
}

// Row `i` of the matrix: bit `i` of each column value.
fn row_of(heap: Global, i: usize, values: &[u64]) -> Result<Vec<u64>, AllocError>
    ensures { IfOk result (λ v. v.items ≡ row_of i values.now) }
{
    values.iter().map(|v| bit_of(*v, i)).collect(heap)
}

impl Table {
    // Row `i` of the matrix as a line of the table.
    fn row_line(self, i: usize, values: &[u64]) -> Result<String, AllocError>
        ensures { IfOk result (λ t. string_bytes t ≡ number_line (codes "row " ++ decimal i) self.width (row_of i values.now)) }
    {
        let label = format!(in self.heap; "row {i:<2}")?;
        let digits = row_of(self.heap, i, values)?;
        self.line(&label, &digits)
    }
}

// How wide a cell of the matrix is: as wide as the widest number that stands in it.
pub(crate) fn matrix_width(numbers: &[u64], values: &[u64]) -> usize
    ensures { result ≡ max (widest numbers.now) (widest values.now) }
{
    widest_of(numbers).max(widest_of(values))
}

// The parity check matrix of these column values as it is drawn on paper, top row first, with the number, the
// value and the kind of each column.
pub fn matrix_picture(
    heap: Global,
    values: &[u64],
    data_columns: &[usize],
    rows: usize,
) -> Result<String, AllocError>
    ensures { IfOk result (λ t. string_bytes t ≡ pictured values.now data_columns.now rows) }
{
    let numbers = column_numbers(heap, values.len())?;
    let width = matrix_width(&numbers, values);
    let table = Table { heap, width };
    let upper = table.lines(&numbers, rows, |i| table.row_line(i, values))?;
    let below = table.line("value ", values)?;
    let kinds = kinds(heap, data_columns, values.len())?;
    let last = table.line("kind  ", &kinds)?;
    format!(in heap; "{upper}\n{below}\n{last}")
}
