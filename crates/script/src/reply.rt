ghost use Rattle.std.specs.Prelude.{◌≡◌, IfOk, string_bytes};
ghost use Rattle.code.specs.Meaning.{columns_of, data_of};
ghost use Rattle.script.specs.Replies.{opened_text, places, unfinished_line, word_line};

use crate::question::Question;
use code::Code;
use picture::{noun_for, value_text};
use std::alloc::{AllocError, Global};

// What is answered of a word: a value, and its bits, so many of them.
pub(crate) fn word_line(
    heap: Global,
    question: Question,
    word: u64,
    value: u64,
    count: usize,
) -> Result<String, AllocError>
    ensures { IfOk result (λ t. string_bytes t ≡ word_line question word value count) }
{
    let answer = value_text(heap, value, question.places(), count)?;
    format!(in heap; "{question} {word}: {answer}")
}

// What is said of a code that was opened.
pub(crate) fn opened_line(heap: Global, code: &Code) -> Result<String, AllocError>
    ensures { IfOk result (λ t. string_bytes t ≡ opened_text (columns_of code.now) (data_of code.now)) }
{
    format!(in heap;
        "code of {} columns: {} data, {} check",
        code.column_count(),
        code.data_count(),
        code.check_count()
    )
}

// The rows of a drawing are not as many as the check columns that its data columns leave.
pub(crate) fn row_count_line(
    heap: Global,
    number: usize,
    rows: usize,
    code: &Code,
) -> Result<String, AllocError> {
    let (columns, count) = (code.column_count(), code.data_count());
    let are = noun_for(rows, "row is", "rows are");
    let named = noun_for(count, "data column", "data columns");
    let leave = noun_for(count, "leaves", "leave");
    let checks = code.check_count();
    format!(in heap;
        "line {number}: {rows} {are} drawn, but {count} {named} of {columns} {leave} {checks}"
    )
}

// What is said of a drawing that the script leaves open.
pub(crate) fn unfinished_line(heap: Global, since: usize) -> Result<String, AllocError>
    ensures { IfOk result (λ t. string_bytes t ≡ unfinished_line since) }
{
    format!(in heap;
        "the script ends, and the drawing that is open since line {since} has no 'data'"
    )
}
