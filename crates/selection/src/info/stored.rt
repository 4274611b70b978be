ghost use Rattle.std.specs.Prelude.{◌≡◌};
ghost use Rattle.selection.specs.Slices.{elems_of};
ghost use Rattle.selection.specs.Errors.{answered};
ghost use Rattle.selection.specs.Infos.{stored, stored_owed, unexpected, storing};

use super::SliceInfo;
use crate::arg::SliceArg;
use crate::error::SliceFault;
use crate::lent::Lent;
use crate::slice::{Slice, SliceInfoElem};

/// What the places past the elements hold, which nothing reads.
// All its bytes are 0, so sixteen of them are made by clearing memory.
const UNUSED: SliceInfoElem = SliceInfoElem::Slice(Slice {
    start: 0,
    end: None,
    step: 0,
});

/// Whether a count is not the expected one, where one is expected.
fn is_unexpected(expected: Option<usize>, count: usize) -> bool
    ensures { result ≡ unexpected expected count }
{
    expected.is_some_and(|number| number != count)
}

impl SliceInfo {
    /// Stores a list of at most sixteen elements that takes and leaves as many axes as expected.
    pub fn new(
        list: &[SliceInfoElem],
        in_dim: Option<usize>,
        out_dim: Option<usize>,
    ) -> Result<SliceInfo, SliceFault>
        ensures { answered stored result ≡ storing in_dim out_dim (elems_of list.now) }
    {
        if list.len() > 16 {
            return Err(SliceFault::RankLimit);
        }
        // Between the length and the counts, so that a list that is too long clears nothing.
        let mut elems = [UNUSED; 16];
        let in_ndim = Lent(list).in_ndim();
        let out_ndim = Lent(list).out_ndim();
        if is_unexpected(in_dim, in_ndim) || is_unexpected(out_dim, out_ndim) {
            return Err(SliceFault::IncompatibleShape);
        }
        elems[..list.len()].copy_from_slice(list);
        Ok(SliceInfo {
            elems,
            len: list.len(),
            in_ndim,
            out_ndim,
        })
    }
}

impl SliceArg for SliceInfo {
    ghost elems = { stored };

    ghost ins = { λ x. x.in_ndim };

    ghost outs = { λ x. x.out_ndim };

    ghost owed = { stored_owed };

    fn len(&self) -> usize {
        self.len
    }

    fn elem(&self, place: usize) -> Option<SliceInfoElem> {
        self.elems[..self.len].get(place).copied()
    }

    fn in_ndim(&self) -> usize {
        self.in_ndim
    }

    fn out_ndim(&self) -> usize {
        self.out_ndim
    }
}
