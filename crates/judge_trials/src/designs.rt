// The codes and classes that the tests are about.
use classes::Mixed;
use code::{Code, Refusal};
use listings::Item;

// Seven columns, four of them data columns: a Hamming code.
pub(crate) fn hamming() -> Result<Code, Refusal> {
    Code::open(&[3, 5, 6, 7, 1, 2, 4], &[0, 1, 2, 3])
}

// The repetition code of length 6.
pub(crate) fn repetition_six() -> Result<Code, Refusal> {
    Code::open(&[31, 1, 2, 4, 8, 16], &[0])
}

// The repetition code of length 2.
pub(crate) fn repetition_two() -> Result<Code, Refusal> {
    Code::open(&[1, 1], &[0])
}

// A data column that no row covers.
pub(crate) fn uncovered() -> Result<Code, Refusal> {
    Code::open(&[0, 1], &[0])
}

// The class of the items, as wide as the code.
pub(crate) fn class(code: &Code, items: &[Item]) -> Result<Mixed, Refusal> {
    Mixed::open(code.column_count(), items)
}
