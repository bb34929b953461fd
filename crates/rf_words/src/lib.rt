//! The words of a command: what a user asks of the program.
#![tactic(auto)]

mod error;
mod laws;
mod options;
mod parse;
mod reading;
mod request;

pub use error::WordsError;
pub use laws::one_command_law;
pub use reading::command;
pub use request::Command;
