ghost use Rattle.std.specs.Prelude.{◌≡◌, length};
ghost use Rattle.laws.specs.Elements.{in_count};
ghost use Rattle.laws.specs.Slicing.{first_fault, slice_fault};
ghost use Rattle.selection.specs.Slices.{elem_of};
ghost use Rattle.selection.specs.Errors.{answered, found};
ghost use Rattle.selection.specs.Resolving.{counts_fit, elem_fault};

use crate::arg::SliceArg;
use crate::error::SliceFault;
use crate::resolving::{resolve_index, resolve_slice};
use crate::slice::SliceInfoElem;
use dimension::{Dimension, word_at};

/// Why the element at a place of a selection is refused on an axis of this length, if it is.
fn elem_fault(place: usize, length: usize, elem: SliceInfoElem) -> Option<SliceFault>
    ensures { found result ≡ elem_fault place length (elem_of elem) }
{
    match elem {
        SliceInfoElem::Slice(range) => resolve_slice(place, length, range).err(),
        SliceInfoElem::Index(index) => resolve_index(place, length, index).err(),
        SliceInfoElem::NewAxis => None,
    }
}

/// The first faulty element of a selection that takes as many axes as there are lengths.
fn first_fault<S: SliceArg, D: Dimension>(sel: &S, lens: &D) -> Option<SliceFault>
    requires { in_count (S.SliceArg.elems sel.now) ≡ length (D.Dimension.words lens.now) }
    ensures { found result ≡ first_fault 0 (S.SliceArg.elems sel.now) (D.Dimension.words lens.now) }
{
    // The axis goes on only where an element takes one.
    let mut axis = 0;
    for (place, elem) in sel.iter().enumerate() {
        if let Some(fault) = elem_fault(place, word_at(lens, axis), elem) {
            return Some(fault);
        }
        if !elem.is_new_axis() {
            axis += 1;
        }
    }
    None
}

/// Refuses a selection that takes another count of axes than there are, then one that leaves more than eight.
pub fn check_counts<S: SliceArg, D: Dimension>(sel: &S, lens: &D) -> Result<(), SliceFault>
    ensures { answered (λ u. u) result ≡ counts_fit (S.SliceArg.elems sel.now) (D.Dimension.words lens.now) }
{
    if sel.in_ndim() != lens.ndim() {
        return Err(SliceFault::AxisCount);
    }
    if sel.out_ndim() > 8 {
        return Err(SliceFault::RankLimit);
    }
    Ok(())
}

/// Why slicing a grid of these lengths is refused, if it is; the two counts are tested before any element.
pub fn slice_fault<S: SliceArg, D: Dimension>(sel: &S, lens: &D) -> Option<SliceFault>
    ensures { found result ≡ slice_fault (S.SliceArg.elems sel.now) (D.Dimension.words lens.now) }
{
    // The answer is the fault itself, which `?` does not hand on.
    if let Err(fault) = check_counts(sel, lens) {
        return Some(fault);
    }
    first_fault(sel, lens)
}
