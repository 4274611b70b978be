// Reshaping: the strides of other lengths over the same cells.
#![tactic(auto)]

mod groups;
mod reshape;
mod turn;
mod walk;

pub use reshape::reshape_dim;
