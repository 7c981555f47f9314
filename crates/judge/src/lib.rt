// The judge of a design, decoding, and decoding tables.
#![tactic(auto)]

mod ask;
mod decoded;
mod decoder;
mod examples;
mod line;
mod search;
mod table;
mod verdict;

pub use decoded::Decoded;
pub use decoder::decode;
pub use examples::worked_verdict;
pub use table::{FLAG, decode_by_table, fill_table};
pub use verdict::judge;
