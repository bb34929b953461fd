//! Texts, and what they are made of: names, numbers and lines; and lists that records hold.
#![tactic(auto)]

mod identifier;
mod items;
mod keyword;
mod laws;
mod lines;
mod number;
mod text;
mod written;

pub use identifier::{is_identifier, starts_identifier};
pub use items::Items;
pub use keyword::is_keyword;
pub use laws::{identifiers_law, written_differ_law, written_end_law};
pub use lines::first_line;
pub use number::{push_number, read_number};
pub use text::Text;
pub use written::{can_be_quoted, push_name, split_written};
