// From the text of a line to the command that it asks for.
#![tactic(auto)]

mod command;
mod expected;
mod parse;
mod scan;
mod selected;

pub use command::{Change, Command, Filling, Kind, Marked, Opening, Ruling, Storing, Value};
pub use expected::{Expected, Noun, What};
pub use parse::parse_line;
pub use selected::{Selection, write_selection};
