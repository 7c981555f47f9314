ghost use Rattle.std.specs.Prelude.{◌≡◌, ◌^◌, ◌<◌, length, IfOk, string_bytes};
ghost use Rattle.code.specs.Meaning.{columns_of, data_of};
ghost use Rattle.report.specs.Decoded.{decoded_line, decoded_text, decoding_line, undone_drawn};

use crate::syndrome::syndrome_text;
use crate::wide::wide_word_line;
use code::{Code, Refusal};
use design::{Design, Duty};
use judge::{Decoded, decode};
use picture::value_text;
use std::alloc::{AllocError, Global};

// What the errors to correct make of a received word.
pub fn decoded_text(heap: Global, design: &Design, word: u64) -> Result<String, AllocError>
    ensures { IfOk result (λ t. string_bytes t ≡ decoded_text design.now word) }
{
    let code = design.code();
    let decoding = decode(code, design.class(Duty::Correct), word);
    decoding_line(heap, code, word, decoding)
}

// What is said of a decoding.
fn decoding_line(
    heap: Global,
    code: &Code,
    word: u64,
    decoding: Result<Decoded, Refusal>,
) -> Result<String, AllocError>
    requires { IfOk decoding (λ d. word < 2 ^ length (columns_of code.now)) }
    ensures { IfOk result (λ t. string_bytes t ≡ decoding_line (columns_of code.now) (data_of code.now) word decoding) }
{
    match decoding {
        Ok(decoded) => decoded_line(heap, code, word, decoded),
        Err(refusal) => wide_word_line(heap, refusal, word, code.column_count()),
    }
}

// The data word and the pattern that was undone to find it, or the syndrome that no pattern has.
fn decoded_line(
    heap: Global,
    code: &Code,
    word: u64,
    decoded: Decoded,
) -> Result<String, AllocError>
    requires { word < 2 ^ length (columns_of code.now) }
    ensures { IfOk result (λ t. string_bytes t ≡ decoded_line (columns_of code.now) (data_of code.now) word decoded) }
{
    match decoded {
        Decoded::Data {
            word: bits,
            pattern,
        } => {
            let found = value_text(heap, bits, "bits", code.data_count())?;
            let undone = undone_text(heap, code, pattern)?;
            format!(in heap; "decode {word}: {found}, {undone}")
        }
        Decoded::Flag => {
            let syndrome = syndrome_text(heap, code, word)?;
            format!(in heap;
                "decode {word}: flag, no pattern to correct has the syndrome {syndrome}"
            )
        }
    }
}

// The pattern that was undone; the empty one is no error.
fn undone_text(heap: Global, code: &Code, pattern: u64) -> Result<String, AllocError>
    ensures { IfOk result (λ t. string_bytes t ≡ undone_drawn (length (columns_of code.now)) pattern) }
{
    if pattern == 0 {
        return String::from_str(heap, "no error found");
    }
    let columns = value_text(heap, pattern, "columns", code.column_count())?;
    format!(in heap; "pattern {columns} undone")
}
