ghost use Rattle.std.specs.Prelude.{◌≡◌, ◌+◌, ◌^◌, ◌<◌, ◌≤◌, not, T, length, pos, ◌+ℤ◌, ◌*ℤ◌, if◌then◌else◌, None, Ok, ◌==◌, nat_le, nat_lt, unsigned_abs};
ghost use Rattle.std.specs.Int.{w64};
ghost use Rattle.std.proofs.Common.{to_z};
ghost use Rattle.laws.specs.Space.{inside};
ghost use Rattle.laws.specs.Faults.{in_selection, refuse, unless};
ghost use Rattle.laws.specs.Elements.{Index, in_count, out_count};
ghost use Rattle.laws.specs.Slicing.{cut_move, first_fault, sliced, slicing};
ghost use Rattle.dimension.specs.Rows.{listed, pushed};
ghost use Rattle.selection.specs.Slices.{elem_of};
ghost use Rattle.selection.specs.Errors.{answered as sliceAnswered};
ghost use Rattle.grid.specs.Errors.{answered, calling};
ghost use Rattle.grid.specs.Layouts.{seen};
ghost use Rattle.grid.specs.Slicing.{Goes, leaving};

use super::Layout;
use crate::error::{GridCall, GridFault, at_call};
use dimension::{Dimension, IxDyn, stride_offset, word_at};
use selection::{
    Slice, SliceArg, SliceFault, SliceInfoElem, Span, check_counts, resolve_index, resolve_slice,
};

/// A slice under way: the axis that comes next, the start, and the axes so far.
#[derive(Drop)]
struct Cut {
    axis: usize,
    start: usize,
    lens: IxDyn,
    strides: IxDyn,
}

/// The start after a range: its first index's strides on, if it keeps an index.
fn cut_start(start: usize, stride: usize, span: Span) -> usize
    ensures { T (inside (2 ^ 64) (pos start +ℤ cut_move span.from span.to span.step (to_z w64 stride))) → pos result ≡ pos start +ℤ cut_move span.from span.to span.step (to_z w64 stride) }
{
    if span.to <= span.from {
        return start;
    }
    stride_offset(start, span.first_index(), stride)
}

/// The stride after a range that leaves so many entries: 0 for one entry or none, else multiplied by the step.
fn cut_stride(stride: usize, count: usize, step: isize) -> usize
    requires stride { 1 < count → unsigned_abs (to_z w64 stride) ≤ 1048576 }
    requires step { unsigned_abs step ≤ 1048576 }
    ensures { to_z w64 result ≡ (if nat_le count 1 then pos 0 else to_z w64 stride *ℤ step) }
{
    if count <= 1 {
        return 0;
    }
    (stride.cast_signed() * step).cast_unsigned()
}

/// Adds an axis to the slice.
fn push_axis(cut: &mut Cut, length: usize, stride: usize)
    ensures axis { cut.new.axis ≡ cut.old.axis }
    ensures start { cut.new.start ≡ cut.old.start }
    ensures lens { listed cut.new.lens ≡ pushed (listed cut.old.lens) length }
    ensures strides { listed cut.new.strides ≡ pushed (listed cut.old.strides) stride }
{
    let _ = cut.lens.push(length);
    let _ = cut.strides.push(stride);
}

/// A range keeps its entries of the next axis.
// Each of these moves the axis on, so that it is at most 8 is known to the loop alone.
fn cut_range(grid: &Layout, cut: &mut Cut, place: usize, range: Slice) -> Result<(), SliceFault>
    requires { cut.old.axis ≤ 8 }
    ensures { Goes (seen grid.now) cut.old place (elem_of (SliceInfoElem.Slice range)) result cut.new }
{
    let length = word_at(&grid.lens, cut.axis);
    let stride = word_at(&grid.strides, cut.axis);
    let span = resolve_slice(place, length, range)?;
    let count = span.entry_count();
    let moved = cut_start(cut.start, stride, span);
    cut.axis += 1;
    cut.start = moved;
    push_axis(cut, count, cut_stride(stride, count, span.step));
    Ok(())
}

/// An index keeps one place of the next axis, and drops the axis.
fn cut_index(grid: &Layout, cut: &mut Cut, place: usize, index: isize) -> Result<(), SliceFault>
    requires { cut.old.axis ≤ 8 }
    ensures { Goes (seen grid.now) cut.old place (Index index) result cut.new }
{
    let length = word_at(&grid.lens, cut.axis);
    let stride = word_at(&grid.strides, cut.axis);
    let at = resolve_index(place, length, index)?;
    cut.axis += 1;
    cut.start = stride_offset(cut.start, at, stride);
    Ok(())
}

/// Takes the slice past one element more; a new axis has length 1 and stride 0.
fn cut_elem(
    grid: &Layout,
    cut: &mut Cut,
    place: usize,
    elem: SliceInfoElem,
) -> Result<(), SliceFault>
    requires { cut.old.axis ≤ 8 }
    ensures { Goes (seen grid.now) cut.old place (elem_of elem) result cut.new }
{
    match elem {
        SliceInfoElem::Slice(range) => cut_range(grid, cut, place, range),
        SliceInfoElem::Index(index) => cut_index(grid, cut, place, index),
        SliceInfoElem::NewAxis => {
            push_axis(cut, 1, 0);
            Ok(())
        }
    }
}

/// The slice after every element, or the first fault.
fn cut_elems<S: SliceArg>(grid: &Layout, sel: &S) -> Result<Cut, SliceFault>
    requires takes { in_count (S.SliceArg.elems sel.now) ≡ length (seen grid.now).lens }
    requires leaves { out_count (S.SliceArg.elems sel.now) ≤ 8 }
    ensures { sliceAnswered (leaving grid.now.cells) result ≡ unless (first_fault 0 (S.SliceArg.elems sel.now) (seen grid.now).lens) (sliced (S.SliceArg.elems sel.now) (seen grid.now)) }
{
    let row = IxDyn::blank();
    let mut cut = Cut {
        axis: 0,
        start: grid.start,
        lens: row,
        strides: row,
    };
    for (place, elem) in sel.iter().enumerate() {
        cut_elem(grid, &mut cut, place, elem)?;
    }
    Ok(cut)
}

impl Layout {
    /// The grid of what a selection takes of this one.
    pub fn slice_move<S: SliceArg>(&self, sel: &S) -> Result<Layout, GridFault>
        ensures { answered seen result ≡ calling GridCall.Slice (slicing (S.SliceArg.elems sel.now) (seen self.now)) }
    {
        at_call(check_counts(sel, &self.lens), GridCall::Slice)?;
        let cut = at_call(cut_elems(self, sel), GridCall::Slice)?;
        // Written out, since a struct with ghost fields is not made by `..`.
        Ok(Layout {
            cells: self.cells,
            start: cut.start,
            lens: cut.lens,
            strides: cut.strides,
        })
    }
}
