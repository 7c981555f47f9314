// The bounds of error classes. A class is as wide as a code may be, so its width has the bounds of a code.

// So many patterns a class lists at most.
pub const MOST_PATTERNS: usize = 1_000_000;
// So many random upsets strike a word at once, at most.
pub const MOST_ONES: usize = 3;
// A burst strikes so many neighbouring columns, from the least to the most.
pub const LEAST_RUN: usize = 2;

pub const MOST_RUN: usize = 8;
// So many items a mixed class has at most.
pub const MOST_ITEMS: usize = 8;
