ghost use Rattle.std.specs.Prelude.{refl};
ghost use Rattle.laws.specs.Elements.{in_count, out_count};
ghost use Rattle.selection.specs.Slices.{elems_of};

use crate::arg::SliceArg;
use crate::slice::SliceInfoElem;

/// A lent list of elements.
#[derive(Clone, Copy)]
pub struct Lent<'a>(pub &'a [SliceInfoElem]);

impl<'a> SliceArg for Lent<'a> {
    ghost elems = { λ x. elems_of x.0.now };

    ghost ins = { λ x. in_count (elems_of x.0.now) };

    ghost outs = { λ x. out_count (elems_of x.0.now) };

    ghost owed = { λ x. record { takes = refl; leaves = refl } };

    fn len(&self) -> usize {
        self.0.len()
    }

    fn elem(&self, place: usize) -> Option<SliceInfoElem> {
        self.0.get(place).copied()
    }

    fn in_ndim(&self) -> usize {
        self.0.iter().filter(|elem| !elem.is_new_axis()).count()
    }

    fn out_ndim(&self) -> usize {
        self.0.iter().filter(|elem| !elem.is_index()).count()
    }
}
