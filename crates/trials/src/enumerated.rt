// A second way to the listings: every word is looked at bit by bit, or built column by column.
use crate::naive;
use std::alloc::{AllocError, Global};

// How many of the lowest 64 columns hold a one.
pub(crate) fn ones(word: u64) -> usize {
    (0..64).filter(|j| naive::bit(word, *j)).count()
}

// Whether the ones of the word, `size` of them, stand side by side: one of them alone has none below it.
pub(crate) fn is_run(word: u64, size: usize) -> bool {
    let lowest = (0..64)
        .filter(|j| naive::bit(word, *j) && !naive::bit(word, j.wrapping_sub(1)))
        .count();
    ones(word) == size && lowest == 1
}

// The words below `end` that pass the test.
pub(crate) fn words<F: Fn(u64) -> bool>(
    heap: Global,
    end: u64,
    test: F,
) -> Result<Vec<u64>, AllocError>
    requires { F.IsAlwaysCallable test }
{
    (0..end).filter(|word| test(*word)).collect(heap)
}

fn weight(column: usize) -> u64 {
    if column < 64 { 1 << column } else { 0 }
}

// The words of `width` columns with three ones, by the columns of these, the highest first.
pub(crate) fn triples(heap: Global, width: usize) -> Result<Vec<u64>, AllocError> {
    let mut found = Vec::new(heap);
    for high in 0..width {
        for middle in 0..high {
            for low in 0..middle {
                found.push(weight(high) | weight(middle) | weight(low))?;
            }
        }
    }
    Ok(found)
}
