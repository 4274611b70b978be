// Rows of words, the orders, and what is computed of a shape.
#![tactic(auto)]

mod dim;
mod dimension_trait;
mod dynindeximpl;
mod error;
mod order;
mod reach;
mod sequence;
mod size;
mod strides;

pub use dim::{Dim, Ix1, Ix2};
pub use dimension_trait::Dimension;
pub use dynindeximpl::IxDyn;
pub use error::{Layer, RowFault};
pub use order::Order;
pub use reach::{
    in_step, magnitude, max_abs_offset_check_overflow, stride_offset, strides_non_negative,
    strides_within,
};
pub use sequence::Reverse;
pub use size::{LIMIT, is_empty, lengths_within, size_of_shape_checked, word_at};
pub use strides::{default_strides, fortran_strides};
