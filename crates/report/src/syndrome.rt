ghost use Rattle.std.specs.Prelude.{◌≡◌, ◌^◌, ◌<◌, length, IfOk, string_bytes};
ghost use Rattle.code.specs.Meaning.{columns_of, data_of};
ghost use Rattle.report.specs.Syndrome.{syndrome_drawn};

use code::Code;
use picture::value_text;
use std::alloc::{AllocError, Global};

// The syndrome of a word of n bits, with its rows.
pub(crate) fn syndrome_text(heap: Global, code: &Code, word: u64) -> Result<String, AllocError>
    requires { word < 2 ^ length (columns_of code.now) }
    ensures { IfOk result (λ t. string_bytes t ≡ syndrome_drawn (columns_of code.now) (data_of code.now) word) }
{
    let syndrome = code.syndrome(word).unwrap();
    value_text(heap, syndrome, "rows", code.check_count())
}
