// Pictures of words, error patterns and matrices, and numbers of things, as text.
// What makes a text is handed the allocator, as the language asks of whatever allocates.
#![tactic(auto)]

mod bits;
mod marked;
mod matrix;
mod noun;
mod patterns;
mod table;

pub use bits::{bits_text, value_text};
pub use marked::marked_picture;
pub use matrix::matrix_picture;
pub use noun::{counted_text, noun_for};
pub use patterns::patterns_picture;
