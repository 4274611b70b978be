ghost use Rattle.std.specs.Prelude.{◌≡◌};
ghost use Rattle.selection.specs.Errors.{answered};
ghost use Rattle.selection.specs.Rules.{ruled, ruled_owed, ruling};

use super::AxisRule;
use crate::arg::SliceArg;
use crate::error::SliceFault;
use crate::slice::{Slice, SliceInfoElem};

impl AxisRule {
    /// A range on an axis below the rank, which is at most eight; whatever the range is.
    pub fn new(rank: usize, axis: usize, range: Slice) -> Result<AxisRule, SliceFault>
        ensures { answered ruled result ≡ ruling rank axis range.start range.end range.step }
    {
        if rank > 8 {
            return Err(SliceFault::RankLimit);
        }
        if axis >= rank {
            return Err(SliceFault::Outside(axis));
        }
        Ok(AxisRule { rank, axis, range })
    }
}

impl SliceArg for AxisRule {
    ghost elems = { ruled };

    ghost ins = { λ x. x.rank };

    ghost outs = { λ x. x.rank };

    ghost owed = { ruled_owed };

    fn len(&self) -> usize {
        self.rank
    }

    fn elem(&self, place: usize) -> Option<SliceInfoElem> {
        let range = if place == self.axis {
            self.range
        } else {
            Slice::WHOLE
        };
        (place < self.rank).then_some(SliceInfoElem::Slice(range))
    }

    fn in_ndim(&self) -> usize {
        self.rank
    }

    fn out_ndim(&self) -> usize {
        self.rank
    }
}
