ghost use Rattle.std.specs.Prelude.{◌≡◌, ◌≤◌, length, take};
ghost use Rattle.laws.specs.Elements.{in_count, out_count};
ghost use Rattle.selection.specs.Slices.{elems_of};

use crate::slice::SliceInfoElem;

mod stored;

/// A stored selection: its elements are the first `len` of sixteen, and it keeps their two counts.
// A fixed array, so that a selection copies without fail.
#[derive(Clone, Copy)]
pub struct SliceInfo {
    elems: [SliceInfoElem; 16],
    len: usize,
    in_ndim: usize,
    out_ndim: usize,
    ghost full: { length elems ≡ 16 },
    ghost few: { len ≤ 16 },
    ghost takes: { in_ndim ≡ in_count (elems_of (take len elems)) },
    ghost leaves: { out_ndim ≡ out_count (elems_of (take len elems)) },
}
