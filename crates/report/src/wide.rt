ghost use Rattle.std.specs.Prelude.{◌≡◌, IfOk, string_bytes};
ghost use Rattle.report.specs.Wide.{wide_data_word, wide_word};

use code::Refusal;
use picture::counted_text;
use std::alloc::{AllocError, Global};

// A word with a bit beyond the columns is refused.
pub fn wide_word_line(
    heap: Global,
    refusal: Refusal,
    word: u64,
    columns: usize,
) -> Result<String, AllocError>
    ensures { IfOk result (λ t. string_bytes t ≡ wide_word word columns refusal) }
{
    let number = refusal.number();
    format!(in heap; "refused {number}: word {word} has a bit beyond the {columns} columns")
}

// A data word with a bit beyond the data columns is refused. It is not one function with the line above:
// that one counts its columns with no singular, so what the two share is a single `format!`.
pub fn wide_data_word_line(
    heap: Global,
    refusal: Refusal,
    word: u64,
    bits: usize,
) -> Result<String, AllocError>
    ensures { IfOk result (λ t. string_bytes t ≡ wide_data_word word bits refusal) }
{
    let number = refusal.number();
    let columns = counted_text(heap, bits, "data column", "data columns")?;
    format!(in heap; "refused {number}: data word {word} has a bit beyond the {columns}")
}
