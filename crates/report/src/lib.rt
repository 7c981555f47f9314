// What the lab says of the judge's verdict, of decoding and of decoding tables, and of a word that is too wide,
// as text.
// What makes a text is handed the allocator, as the language asks of whatever allocates.
#![tactic(auto)]

mod clash;
mod decoded;
mod syndrome;
mod table;
mod verdict;
mod wide;

pub use decoded::decoded_text;
pub use table::table_text;
pub use verdict::verdict_text;
pub use wide::{wide_data_word_line, wide_word_line};
