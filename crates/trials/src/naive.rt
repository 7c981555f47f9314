// A second way to the same answers: every column is looked at in turn, bit by bit, over true and false.

// The bit of the word in column j.
pub(crate) fn bit(word: u64, j: usize) -> bool {
    j < 64 && (word >> j) % 2 == 1
}

// Whether the row covers an odd number of the ones of the word.
fn is_odd(values: &[u64], word: u64, row: usize) -> bool {
    let covered = values
        .iter()
        .enumerate()
        .filter(|(j, v)| bit(**v, row) && bit(word, *j))
        .count();
    covered % 2 == 1
}

// The syndrome, row by row: the parity of the ones that a row covers.
pub(crate) fn syndrome(values: &[u64], word: u64) -> u64 {
    (0..16)
        .filter(|row| is_odd(values, word, *row))
        .fold(0, |sum, row| sum | 1 << row)
}

// The bits of the word in the data columns.
pub(crate) fn data_bits(numbers: &[usize], word: u64) -> u64 {
    numbers
        .iter()
        .enumerate()
        .filter(|(_, j)| bit(word, **j))
        .fold(0, |bits, (i, _)| if i < 64 { bits | 1 << i } else { bits })
}
