use crate::matrix::Matrix;
use crate::weight::weight;
use anyhow::{Context, Result, ensure};
use std::alloc::Global;

// A mask has room for so many columns, and one bit to spare.
const MOST_COLUMNS: usize = 63;

// Reads a matrix: a line for each row, its digits 0 and 1 with column 0 left, and a line 'data' with the
// numbers of the data columns. A line that begins with '#' is a comment.
pub(crate) fn read_matrix(heap: Global, text: &str) -> Result<Matrix> {
    let mut matrix = Matrix {
        width: 0,
        rows: Vec::new(heap),
        data_columns: Vec::new(heap),
    };
    for line in text.lines() {
        read_line(&mut matrix, line)?;
    }
    let check = matrix.rows.len();
    ensure!(
        matrix.width.checked_sub(check) == Some(matrix.data_columns.len()),
        "there is not a data column for each column beyond the {check} rows"
    );
    Ok(matrix)
}

fn read_line(matrix: &mut Matrix, line: &str) -> Result<()> {
    if line.starts_with('#') {
        return Ok(());
    }
    match line.strip_prefix("data ") {
        Some(numbers) => read_data_columns(matrix, numbers),
        None => read_row(matrix, line),
    }
}

fn read_data_columns(matrix: &mut Matrix, numbers: &str) -> Result<()> {
    for number in numbers.split_whitespace() {
        let column = number
            .parse::<usize>()
            .context(format_args!("reading the data column {number:?}"))?;
        matrix.data_columns.push(column)?;
    }
    Ok(())
}

// The first row says how wide the matrix is.
fn read_row(matrix: &mut Matrix, line: &str) -> Result<()> {
    let width = line.len();
    ensure!(width <= MOST_COLUMNS, "a row has {width} columns");
    ensure!(
        matrix.rows.is_empty() || width == matrix.width,
        "a row has {width} columns, and the rows before it have not"
    );
    let row = row_mask(line).context(format_args!("reading the row {line:?}"))?;
    matrix.width = width;
    matrix.rows.push(row)?;
    Ok(())
}

// The mask of a row of digits, unless there is another sign among them.
fn row_mask(line: &str) -> Option<u64> {
    let mut mask = 0;
    for (column, digit) in line.bytes().enumerate() {
        match digit {
            b'0' => {}
            b'1' => mask |= weight(column),
            _ => return None,
        }
    }
    Some(mask)
}
