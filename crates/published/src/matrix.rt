use crate::weight::weight;
use std::alloc::{AllocError, Global};

// A parity-check matrix as it is drawn, with its data columns named.
#[derive(Drop)]
pub(crate) struct Matrix {
    pub(crate) width: usize,
    // each row as a mask of the columns in which it holds a one
    pub(crate) rows: Vec<u64>,
    pub(crate) data_columns: Vec<usize>,
}

impl Matrix {
    // The values of the columns: what the rows count in which a column holds a one.
    pub(crate) fn column_values(&self, heap: Global) -> Result<Vec<u64>, AllocError> {
        (0..self.width)
            .map(|column| self.column_value(column))
            .collect(heap)
    }

    fn column_value(&self, column: usize) -> u64 {
        self.rows
            .iter()
            .enumerate()
            .filter(|(_, row)| **row & weight(column) != 0)
            .fold(0, |value, (i, _)| value | weight(i))
    }
}
