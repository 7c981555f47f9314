// A design: a code, and the errors that it is to correct and to flag.
// What makes a text is handed the allocator, as the language asks of whatever allocates.
#![tactic(auto)]

mod belongs;
mod count;
mod design;
mod duty;
mod list;
mod overview;

pub use design::Design;
pub use duty::{Duty, UnknownDuty};
