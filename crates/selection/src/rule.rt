ghost use Rattle.std.specs.Prelude.{◌<◌, ◌≤◌};

use crate::slice::Slice;

mod ruled;

/// A selection of a given rank whose axes are whole but for one, which has a range.
#[derive(Clone, Copy)]
pub struct AxisRule {
    rank: usize,
    axis: usize,
    range: Slice,
    ghost few: { rank ≤ 8 },
    ghost within: { axis < rank },
}
