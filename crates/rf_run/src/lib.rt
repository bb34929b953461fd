//! The top call: a run of the program from its words to its status, over any folder and any sinks.
//!
//! `run` is all that the program does. Its contract is what the program promises.
#![tactic(auto)]

mod built;
mod check;
mod end;
mod ends;
mod evaluate;
mod files;
mod generate;
mod grow;
mod job;
mod leave;
mod lines;
mod refusal;
mod reply;
mod status;
mod stop;
mod top;
mod verify;

pub use end::{Cut, End, Reply, Sign};
pub use refusal::{File, Refusal};
pub use status::Status;
pub use top::run;
