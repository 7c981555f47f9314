ghost use Rattle.std.specs.Prelude.{◌≡◌, IfOk, string_bytes};
ghost use Rattle.picture.specs.Patterned.{bits_of, pattern_line, patterned};

use crate::bits::bit_of;
use crate::table::{Table, column_numbers, widest_of};
use std::alloc::{AllocError, Global};

// The bits of a pattern in the order of the columns.
fn bits_of(heap: Global, pattern: u64, columns: usize) -> Result<Vec<u64>, AllocError>
    ensures { IfOk result (λ v. v.items ≡ bits_of columns pattern) }
{
    (0..columns).map(|j| bit_of(pattern, j)).collect(heap)
}

impl Table {
    // The pattern at the place `i` as a line of the table.
    fn pattern_line(self, columns: usize, i: usize, pattern: u64) -> Result<String, AllocError>
        ensures { IfOk result (λ t. string_bytes t ≡ pattern_line self.width columns i pattern) }
    {
        let label = format!(in self.heap; "{i:<6}")?;
        let bits = bits_of(self.heap, pattern, columns)?;
        let cells = self.line(&label, &bits)?;
        format!(in self.heap; "{cells} = {pattern}")
    }
}

// Error patterns as they strike a word of so many columns, with their places counted from 0.
pub fn patterns_picture(
    heap: Global,
    patterns: &[u64],
    columns: usize,
) -> Result<String, AllocError>
    ensures { IfOk result (λ t. string_bytes t ≡ patterned patterns.now columns) }
{
    let numbers = column_numbers(heap, columns)?;
    let width = widest_of(&numbers);
    let table = Table { heap, width };
    table.lines(
        &numbers,
        patterns.len(),
        |i| table.pattern_line(columns, i, patterns[i]),
    )
}
