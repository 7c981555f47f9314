ghost use Rattle.std.specs.Prelude.{Some};
ghost use Rattle.script.specs.Replies.{place};

use code::Refusal;
use std::fmt;

// Where a refusal points to: an item of a list by its index, or a column.
#[derive(Clone, Copy)]
pub(super) struct Place(pub(super) Refusal);

impl fmt::Display for Place {
    ghost output = { λ p. Some (place p.0) };

    fn fmt<W: fmt::Write>(&self, f: &mut fmt::Formatter<W>) -> fmt::Result {
        match self.0 {
            Refusal::OutOfBoundsAt(i) | Refusal::DataColumn(i) | Refusal::TooWideAt(i) => {
                write!(f, " at index {i}")
            }
            Refusal::ColumnValue(j) => write!(f, " at column {j}"),
            _ => Ok(()),
        }
    }
}
