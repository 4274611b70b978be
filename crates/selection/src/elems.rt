ghost use Rattle.std.specs.Iterator.{YieldsFirstBy, item_count};
ghost use Rattle.selection.specs.Slices.{elem_of};
ghost use Rattle.selection.specs.Walks.{elems_left};

use crate::arg::SliceArg;
use crate::slice::SliceInfoElem;
use std::ops::Range;

/// An iterator over the elements of a selection, in order.
#[derive(Drop)]
pub struct Elems<'a, S> {
    pub(crate) sel: &'a S,
    pub(crate) places: Range<usize>,
}

impl<'a, S: SliceArg> Iterator for Elems<'a, S> {
    type Item = SliceInfoElem;

    ghost next_gives = { YieldsFirstBy elem_of (elems_left S.SliceArg.elems) };

    ghost remaining = { item_count (elems_left S.SliceArg.elems) };

    fn next(&mut self) -> Option<SliceInfoElem> {
        self.sel.elem(self.places.next()?)
    }
}
