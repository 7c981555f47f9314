// The bounds of a code; the definitions name them in specs/Limits.antt.

// A code has at least one data column and one check column.
pub const LEAST_COLUMNS: usize = 2;

pub const MOST_COLUMNS: usize = 63;

pub const MOST_CHECKS: usize = 16;
