ghost use Rattle.code.specs.Shorts.{kept};
ghost use Rattle.code.specs.Codes.{Laid};

use crate::limits::{MOST_CHECKS, MOST_COLUMNS};
use crate::short::Short;

mod columns;
mod counts;
mod encode;
pub mod fresh;
mod open;
mod syndrome;

// A code of n columns, k of them data columns, with r = n - k rows.
// Of every code value it is known that its check columns hold the units 1, 2, 4 .. 2^(r-1),
// each once, so no operation tests that again.
#[derive(Clone, Copy)]
pub struct Code {
    // the value of each column
    values: Short<u64, MOST_COLUMNS>,
    // the data columns, rising
    message: Short<usize, MOST_COLUMNS>,
    // the check column of each row
    checks: Short<usize, MOST_CHECKS>,
    ghost laid: { Laid (kept values) (kept message) (kept checks) },
}
