// Filling the cells of a grid, and reading them.
#![tactic(auto)]

mod filling;
mod lent;
mod pay;
mod reader;
mod walk;

pub use filling::{fill, fill_selection};
pub use pay::PayLine;
pub use reader::Reader;
