// Selections: their elements, the kinds of selection, and what an element makes of an axis.
#![tactic(auto)]

mod arg;
mod elems;
mod error;
mod info;
mod lent;
mod resolving;
mod rule;
mod slice;
mod slicing;

pub use arg::SliceArg;
pub use elems::Elems;
pub use error::SliceFault;
pub use info::SliceInfo;
pub use lent::Lent;
pub use resolving::{Span, abs_index, resolve_index, resolve_slice};
pub use rule::AxisRule;
pub use slice::{Slice, SliceInfoElem};
pub use slicing::{check_counts, slice_fault};
