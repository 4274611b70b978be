ghost use Rattle.std.specs.Prelude.{◌≡◌, OnErr};
ghost use Rattle.laws.specs.Faults.{unless};
ghost use Rattle.laws.specs.Collapsing.{axis_fault, collapsing};
ghost use Rattle.grid.specs.Errors.{answered, calling};
ghost use Rattle.grid.specs.Layouts.{seen};

use super::Layout;
use crate::error::{Cause, GridCall, GridFault};
use dimension::{Dimension, stride_offset, word_at};

/// Refuses an axis that the grid does not have.
pub(super) fn check_axis(grid: &Layout, axis: usize, call: GridCall) -> Result<(), GridFault>
    ensures { answered (λ u. u) result ≡ calling call (unless (axis_fault (seen grid.now) axis) tt) }
{
    if axis >= grid.lens.ndim() {
        return Err(GridFault {
            cause: Cause::Outside(axis),
            call,
        });
    }
    Ok(())
}

impl Layout {
    /// Keeps one index of an axis, which stays with length 1; a refusal changes nothing.
    pub fn collapse_axis(&mut self, axis: usize, index: usize) -> Result<(), GridFault>
        ensures answer { answered (λ _. seen self.new) result ≡ calling GridCall.Collapse (collapsing axis index (seen self.old)) }
        ensures same { OnErr result (self.new ≡ self.old) }
    {
        check_axis(self, axis, GridCall::Collapse)?;
        if index >= word_at(&self.lens, axis) {
            return Err(GridFault {
                cause: Cause::Outside(axis),
                call: GridCall::Collapse,
            });
        }
        self.start = stride_offset(self.start, index, word_at(&self.strides, axis));
        let _ = self.lens.set(axis, 1);
        Ok(())
    }
}
