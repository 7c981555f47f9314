use crate::matrix::Matrix;
use crate::weight::weight;
use std::alloc::{AllocError, Global};

// A place of the line-up. Places are in order of their syndromes, and with one syndrome in order of the line-up.
#[derive(Clone, Copy, PartialEq, Eq, PartialOrd, Ord)]
pub(crate) struct Place {
    pub(crate) syndrome: u64,
    // how many places stand before it in the line-up
    pub(crate) number: usize,
    pub(crate) pattern: u64,
    // whether the pattern is to be corrected, as the empty pattern is
    pub(crate) is_corrected: bool,
}

// The places of the line-up: the empty pattern, the patterns to correct, and those patterns to detect that are
// not to be corrected.
pub(crate) fn line_up(
    heap: Global,
    matrix: &Matrix,
    correct: &[u64],
    detect: &[u64],
) -> Result<Vec<Place>, AllocError> {
    let mut line = vec![in heap; 0]?;
    line.extend_from_slice(correct)?;
    line.extend(detect.iter().filter(|pattern| !correct.contains(pattern)))?;
    line.iter()
        .enumerate()
        .map(|(number, pattern)| Place {
            syndrome: syndrome(matrix, *pattern),
            number,
            pattern: *pattern,
            is_corrected: number <= correct.len(),
        })
        .collect(heap)
}

// The syndrome, row by row: whether a row covers an odd number of the ones of the pattern.
fn syndrome(matrix: &Matrix, pattern: u64) -> u64 {
    matrix
        .rows
        .iter()
        .enumerate()
        .filter(|(_, row)| (**row & pattern).count_ones() % 2 == 1)
        .fold(0, |sum, (i, _)| sum | weight(i))
}
