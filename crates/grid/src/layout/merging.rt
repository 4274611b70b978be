ghost use Rattle.std.specs.Prelude.{◌≡◌, ◌≤◌, false, pos, ◌*ℤ◌, MatchResult, unsigned_abs};
ghost use Rattle.std.specs.Int.{w64};
ghost use Rattle.std.proofs.Common.{to_z};
ghost use Rattle.laws.specs.Faults.{unless};
ghost use Rattle.laws.specs.Merging.{same_stride, merge_fault, mergeable, merged_stride};
ghost use Rattle.laws.specs.Calls.{Merging, after};
ghost use Rattle.grid.specs.Errors.{answered, calling};
ghost use Rattle.grid.specs.Layouts.{seen};

use super::Layout;
use super::collapsing::check_axis;
use crate::error::{GridCall, GridFault};
use dimension::{Dimension, in_step, word_at};

/// Whether one axis can be joined to another.
fn is_mergeable(grid: &Layout, take: usize, into: usize) -> bool
    ensures { result ≡ mergeable take into (seen grid.now) }
{
    if word_at(&grid.lens, take) <= 1 {
        return true;
    }
    if take == into {
        return false;
    }
    let length = word_at(&grid.lens, into);
    if length <= 1 {
        return true;
    }
    let stride = word_at(&grid.strides, take);
    in_step(stride, length, word_at(&grid.strides, into))
}

/// The stride of the joined axis: take's if into alone has a length of at most 1.
fn merged_stride(grid: &Layout, take: usize, into: usize) -> usize
    ensures { to_z w64 result ≡ merged_stride take into (seen grid.now) }
{
    let stride = word_at(&grid.strides, into);
    if word_at(&grid.lens, take) <= 1 {
        return stride;
    }
    if word_at(&grid.lens, into) <= 1 {
        return word_at(&grid.strides, take);
    }
    stride
}

impl Layout {
    /// Joins the axis `take` to the axis `into` where their cells lie in step, and says whether it did; a no and a refusal change nothing.
    pub fn merge_axes(&mut self, take: usize, into: usize) -> Result<bool, GridFault>
        ensures answer { answered (λ yes. yes) result ≡ calling GridCall.Merge (unless (merge_fault take into (seen self.old)) (mergeable take into (seen self.old))) }
        ensures after { seen self.new ≡ after (Merging take into) (seen self.old) }
        ensures same { MatchResult result (λ yes. yes ≡ false → self.new ≡ self.old) (λ _. self.new ≡ self.old) }
    {
        check_axis(self, take, GridCall::Merge)?;
        check_axis(self, into, GridCall::Merge)?;
        if !is_mergeable(self, take, into) {
            return Ok(false);
        }
        let length = word_at(&self.lens, into) * word_at(&self.lens, take);
        let stride = merged_stride(self, take, into);
        let _ = self.lens.set(into, length);
        let _ = self.lens.set(take, length.min(1));
        let _ = self.strides.set(into, stride);
        Ok(true)
    }
}
