// The layout of a grid, and the calls on it.
#![tactic(auto)]

mod calls;
mod error;
mod layout;
mod shape_builder;

pub use calls::{Answer, Call, Outcome, perform, replay};
pub use error::{Cause, During, GridCall, GridFault, at_call};
pub use layout::Layout;
pub use shape_builder::Strides;
