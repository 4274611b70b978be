ghost use Rattle.std.specs.Prelude.{◌≡◌, true, false, map, length, if◌then◌else◌, ◌==◌};
ghost use Rattle.laws.specs.Calls.{Slicing, Collapsing, Merging, accepted, answer, after, run, answers};
ghost use Rattle.laws.specs.History.{Kept};
ghost use Rattle.grid.specs.declared.error.GridCall.TheVariants.{Slice as Sliced, Collapse as Collapsed, Merge as Merged};
ghost use Rattle.grid.specs.Calls.{meaning, name_of, saying, Naming, Names};
ghost use Rattle.grid.specs.Layouts.{seen};

use crate::error::GridFault;
use crate::layout::Layout;
use selection::SliceArg;
use std::fmt;

/// A call that changes a grid, with its arguments.
#[derive(Clone, Copy, Drop)]
pub enum Call<S> {
    Slice(S),
    Collapse(usize, usize),
    Merge(usize, usize),
}

impl<S: fmt::Display> fmt::Display for Call<S> {
    fn fmt<W: fmt::Write>(&self, f: &mut fmt::Formatter<W>) -> fmt::Result {
        match self {
            Call::Slice(sel) => write!(f, "slice {sel}"),
            Call::Collapse(axis, index) => write!(f, "collapse {axis} {index}"),
            Call::Merge(take, into) => write!(f, "merge {take} {into}"),
        }
    }
}

/// How a call that is not refused ends: merging's no, or done.
#[derive(Clone, Copy, PartialEq, Eq, Debug)]
pub enum Outcome {
    No,
    Done,
}

/// What a call answers: how it ends, or why it is refused.
pub type Answer = Result<Outcome, GridFault>;

/// Slices a grid in its place.
fn slice<S: SliceArg>(grid: &mut Layout, sel: &S) -> Answer
    ensures answer { saying result ≡ answer (Slicing (S.SliceArg.elems sel.now)) (seen grid.old) }
    ensures naming { Naming Sliced result }
    ensures after { seen grid.new ≡ after (Slicing (S.SliceArg.elems sel.now)) (seen grid.old) }
    ensures same { accepted (saying result) ≡ false → grid.new ≡ grid.old }
{
    *grid = grid.slice_move(sel)?;
    Ok(Outcome::Done)
}

/// Collapses an axis.
fn collapse(grid: &mut Layout, axis: usize, index: usize) -> Answer
    ensures answer { saying result ≡ answer (Collapsing axis index) (seen grid.old) }
    ensures naming { Naming Collapsed result }
    ensures after { seen grid.new ≡ after (Collapsing axis index) (seen grid.old) }
    ensures same { accepted (saying result) ≡ false → grid.new ≡ grid.old }
{
    grid.collapse_axis(axis, index)?;
    Ok(Outcome::Done)
}

/// Merges two axes.
fn merge(grid: &mut Layout, take: usize, into: usize) -> Answer
    ensures answer { saying result ≡ answer (Merging take into) (seen grid.old) }
    ensures naming { Naming Merged result }
    ensures after { seen grid.new ≡ after (Merging take into) (seen grid.old) }
    ensures same { accepted (saying result) ≡ false → grid.new ≡ grid.old }
{
    let merged = grid.merge_axes(take, into)?;
    Ok(if merged { Outcome::Done } else { Outcome::No })
}

/// Makes one call; a refused one and merging's no change nothing.
pub fn perform<S: SliceArg>(grid: &mut Layout, call: &Call<S>) -> Answer
    ensures answer { saying result ≡ answer (meaning S.SliceArg.elems call.now) (seen grid.old) }
    ensures naming { Naming (name_of call.now) result }
    ensures after { seen grid.new ≡ after (meaning S.SliceArg.elems call.now) (seen grid.old) }
    ensures same { accepted (saying result) ≡ false → grid.new ≡ grid.old }
{
    match call {
        Call::Slice(sel) => slice(grid, sel),
        Call::Collapse(axis, index) => collapse(grid, *axis, *index),
        Call::Merge(take, into) => merge(grid, *take, *into),
    }
}

/// Makes the calls one after another and writes what each answers, where there is a place for each answer; else it says no and changes nothing.
pub fn replay<S: SliceArg>(grid: &mut Layout, calls: &[Call<S>], said: &mut [Answer]) -> bool
    ensures answer { result ≡ (length calls.now == length said.old) }
    ensures answers { map saying said.new ≡ (if result then answers (seen grid.old) (map (meaning S.SliceArg.elems) calls.now) else map saying said.old) }
    ensures names { result ≡ true → Names calls.now said.new }
    ensures after { seen grid.new ≡ (if result then run (seen grid.old) (map (meaning S.SliceArg.elems) calls.now) else seen grid.old) }
    ensures same { result ≡ false → (grid.new ≡ grid.old) × (said.new ≡ said.old) }
    ensures kept { Kept (seen grid.old) (map (meaning S.SliceArg.elems) calls.now) }
{
    if calls.len() != said.len() {
        return false;
    }
    // By place, since an iterator over the answers would hide what was written.
    for (place, call) in calls.iter().enumerate() {
        said[place] = perform(grid, call);
    }
    true
}
