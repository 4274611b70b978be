ghost use Rattle.std.specs.Prelude.{◌≡◌, ◌<◌, IfOk};
ghost use Rattle.laws.specs.Elements.{bad_step, entries, first};
ghost use Rattle.selection.specs.Errors.{answered};
ghost use Rattle.selection.specs.Resolving.{placed, placed_end, spanned, Bounded, ranged, indexed};

use crate::error::SliceFault;
use crate::slice::Slice;
use dimension::LIMIT;

/// Where a range begins and stops on its axis, and in which steps it goes.
#[derive(Clone, Copy, PartialEq, Eq, Debug)]
pub struct Span {
    pub from: usize,
    pub to: usize,
    pub step: isize,
}

impl Span {
    /// How many indices the range takes.
    pub fn entry_count(&self) -> usize
        ensures { result ≡ entries self.now.from self.now.to self.now.step }
    {
        let size = self.step.unsigned_abs();
        if size == 0 {
            return 0;
        }
        self.to.saturating_sub(self.from).div_ceil(size)
    }

    /// The first of the indices that the range takes.
    pub fn first_index(&self) -> usize
        ensures { result ≡ first self.now.from self.now.to self.now.step }
    {
        if self.step < 0 {
            self.to.saturating_sub(1)
        } else {
            self.from
        }
    }
}

/// A place on an axis of this length, where a negative one counts from the end; none below 0.
pub fn abs_index(length: usize, place: isize) -> Option<usize>
    ensures { result ≡ placed length place }
{
    if place >= 0 {
        Some(place as usize)
    } else {
        length.checked_sub(place.unsigned_abs())
    }
}

/// The end of a range on an axis of this length, which is the length where none is given.
fn abs_end(length: usize, end: Option<isize>) -> Option<usize>
    ensures { result ≡ placed_end length end }
{
    end.map_or(Some(length), |place| abs_index(length, place))
}

/// Where a range begins and stops on an axis of this length; none where it is outside.
fn bounds(length: usize, start: isize, end: Option<isize>) -> Option<(usize, usize)>
    ensures { result ≡ spanned length start end }
{
    let from = abs_index(length, start)?;
    let to = from.max(abs_end(length, end)?);
    (to <= length).then_some((from, to))
}

/// Whether a step is 0 or of too great a magnitude.
fn is_bad_step(step: isize) -> bool
    ensures { result ≡ bad_step step }
{
    let size = step.unsigned_abs();
    size == 0 || size > LIMIT
}

/// Where the range at a place of a selection begins and stops on its axis.
pub fn resolve_slice(place: usize, length: usize, range: Slice) -> Result<Span, SliceFault>
    ensures answer { answered (λ s. (s.from, s.to)) result ≡ ranged place length range.start range.end range.step }
    ensures law { IfOk result (λ s. Bounded length range.step s.from s.to) }
    ensures steps { IfOk result (λ s. s.step ≡ range.step) }
{
    let Slice { start, end, step } = range;
    let (from, to) = bounds(length, start, end).ok_or(SliceFault::Outside(place))?;
    if is_bad_step(step) {
        return Err(SliceFault::BadStep(place));
    }
    Ok(Span { from, to, step })
}

/// The index that an index at a place of a selection keeps of its axis.
pub fn resolve_index(place: usize, length: usize, index: isize) -> Result<usize, SliceFault>
    ensures answer { answered (λ n. n) result ≡ indexed place length index }
    ensures law { IfOk result (λ n. n < length) }
{
    abs_index(length, index)
        .filter(|at| *at < length)
        .ok_or(SliceFault::Outside(place))
}
