//! Files of cases of runs: what they say, read from their lines, and the folder and outputs of each
//! run. README.md has the form of the files.
#![tactic(auto)]

mod bytes;
mod case;
mod numbers;
mod outside;
mod reader;
mod trials;

pub use case::{Case, Outcome, Setting};
pub use outside::{error_output_of, folder_of, output_of};
pub use reader::read_cases;
pub use trials::Trial;
