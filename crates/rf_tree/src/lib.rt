//! Trees of rules and decisions, which close the states that a problem leaves, their lines, and the documents of these.
#![tactic(auto)]

mod checked;
mod entry;
mod feeding;
mod fields;
mod fields_of;
mod format;
mod laws;
mod line;
mod line_fields;
mod line_reader;
mod numbers;
mod outcome;
mod part;
mod print;
mod reader;
mod word;

pub use checked::{Checked, TreeJudge};
pub use format::Format;
pub use laws::{bad_line_law, document_law, open_law, reading_law, stand_law, valid_law};
pub use line::Line;
pub use outcome::{Outcome, Solver};
pub use print::print_tree;
pub use reader::{TreeError, TreeReader};
