use crate::errors::Errors;
use crate::weight::weight;
use std::alloc::{AllocError, Global};

// The patterns of errors, made column by column, each kind rising. No class is asked for them.

// The patterns of each kind in turn.
pub(crate) fn patterns(
    heap: Global,
    width: usize,
    errors: &[Errors],
) -> Result<Vec<u64>, AllocError> {
    let mut found = Vec::new(heap);
    for kind in errors {
        found.extend_from_slice(&patterns_of(heap, width, kind)?)?;
    }
    Ok(found)
}

fn patterns_of(heap: Global, width: usize, kind: &Errors) -> Result<Vec<u64>, AllocError> {
    match kind {
        Errors::Single => (0..width).map(weight).collect(heap),
        Errors::Double => doubles(heap, width),
        Errors::DoubleAdjacent => (1..width)
            .map(|high| weight(high) | weight(high - 1))
            .collect(heap),
        Errors::Triple => triples(heap, width),
    }
}

fn doubles(heap: Global, width: usize) -> Result<Vec<u64>, AllocError> {
    let mut found = Vec::new(heap);
    for high in 0..width {
        for low in 0..high {
            found.push(weight(high) | weight(low))?;
        }
    }
    Ok(found)
}

fn triples(heap: Global, width: usize) -> Result<Vec<u64>, AllocError> {
    let mut found = Vec::new(heap);
    for high in 0..width {
        for middle in 0..high {
            for low in 0..middle {
                found.push(weight(high) | weight(middle) | weight(low))?;
            }
        }
    }
    Ok(found)
}
