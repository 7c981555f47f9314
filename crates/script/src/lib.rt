// The lab's script: what a line asks for, and the text that answers it.
// What makes a text is handed the allocator, as the language asks of whatever allocates.
#![tactic(auto)]

mod answer;
mod change;
mod command;
mod comment;
mod drawing;
mod fault;
mod kind;
mod numeral;
mod question;
mod refused;
mod reply;
mod row;
mod session;

pub use command::Command;
pub use session::Session;
