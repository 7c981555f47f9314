// Binary linear codes by their parity-check matrix, and the refusals of the whole product.
#![tactic(auto)]

mod code;
mod examples;
mod layout;
mod limits;
mod refusal;
mod short;
mod words;

pub use code::Code;
pub use examples::worked_examples;
pub use limits::{LEAST_COLUMNS, MOST_CHECKS, MOST_COLUMNS};
pub use refusal::{Clash, Refusal};
pub use short::{Full, Short};
pub use words::weight;
