ghost use Rattle.std.specs.Prelude.{◌≡◌, ℕ, ◌+◌, ◌^◌, ◌<◌, ◌≤◌, [], length, IfOk, IfErr, OnErr, OnOk};
ghost use Rattle.script.specs.Limits.{most_rows};
ghost use Rattle.script.specs.Stacked.{AllBelow, Stacks, stacked};
ghost use Rattle.script.specs.Untaken.{Untaken};

use crate::fault::Fault;
use std::alloc::{AllocError, Global};

// With so many rows at most, a column value fits 64 bits.
pub(crate) const MOST_ROWS: usize = 63;

// A matrix that is drawn row by row, the top row first.
#[derive(Drop)]
pub struct Drawing {
    heap: Global,
    // the line of the script that opened the drawing
    since: usize,
    // the rows so far
    rows: usize,
    // the value of each column in these rows
    values: Vec<u64>,
    ghost bounded: { (rows ≤ most_rows) × AllBelow (2 ^ rows) values.items },
}

impl Drawing {
    // A drawing with no row yet.
    pub(crate) fn new(heap: Global, since: usize) -> Drawing
        ensures line { result.since ≡ since }
        ensures blank { (result.rows ≡ 0) × (result.values.items ≡ []) }
    {
        Drawing {
            heap,
            since,
            rows: 0,
            values: Vec::new(heap),
        }
    }

    pub(crate) fn since(&self) -> usize
        ensures { result ≡ self.now.since }
    {
        self.since
    }

    pub(crate) fn row_count(&self) -> usize
        ensures { result ≡ self.now.rows }
    {
        self.rows
    }

    pub(crate) fn column_values(&self) -> &[u64]
        ensures { result.now ≡ self.now.values.items }
    {
        &self.values
    }

    // Draws a row under the rows so far; the first row says how many columns there are.
    pub(crate) fn add_row(&mut self, row: &[bool]) -> Result<(), Fault<'static>>
        ensures drawn { OnOk result (Stacks self.old.rows self.old.values.items row.now self.new.rows self.new.values.items) }
        ensures line { OnOk result (self.new.since ≡ self.old.since) }
        ensures same { OnErr result (self.new ≡ self.old) }
        ensures why { IfErr result (λ e. Untaken self.old.rows (length self.old.values.items) (length row.now) e) }
    {
        if self.rows >= MOST_ROWS {
            return Err(Fault::TooManyRows);
        }
        let values = if self.rows == 0 {
            let blank = vec![in self.heap; 0; row.len()]?;
            stack(self.heap, 0, &blank, row)?
        } else {
            let above = self.column_values();
            if row.len() != above.len() {
                return Err(Fault::RowWidth {
                    drawn: row.len(),
                    above: above.len(),
                });
            }
            stack(self.heap, self.rows, above, row)?
        };
        self.rows += 1;
        self.values = values;
        Ok(())
    }
}

// The column values with row `i` under the rows above it.
fn stack(heap: Global, i: usize, above: &[u64], row: &[bool]) -> Result<Vec<u64>, AllocError>
    requires room { i < most_rows }
    requires low { AllBelow (2 ^ i) above.now }
    ensures { IfOk result (λ v. v.items ≡ stacked i above.now row.now) }
{
    let weight = 1 << i;
    above
        .iter()
        .zip(row)
        .map(|(value, one)| if *one { *value + weight } else { *value })
        .collect(heap)
}
