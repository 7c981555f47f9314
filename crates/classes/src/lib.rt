// Error classes: what an error class is, and the classes that a student may name.
#![tactic(auto)]

mod burst;
mod check;
mod class;
mod duty;
mod entry;
mod listed;
mod mixed;
mod patterns;
mod random;
mod width;

pub use burst::Burst;
pub use class::ErrorClass;
pub use duty::detectable_count;
pub use listed::Listed;
pub use mixed::Mixed;
pub use patterns::{PatternsOf, patterns_of};
pub use random::Random;
