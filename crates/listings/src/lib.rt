// What a student may name as errors, and which patterns that lists, in which order.
#![tactic(auto)]

mod item;
mod limits;

pub use item::Item;
pub use limits::{LEAST_RUN, MOST_ITEMS, MOST_ONES, MOST_PATTERNS, MOST_RUN};
