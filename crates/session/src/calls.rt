use crate::answer::Answer;
use crate::refusal::{Fault, Refusal};
use dimension::IxDyn;
use grid::{GridCall, GridFault, Layout, Outcome, Strides, at_call, replay};
use script::{Change, Opening, Ruling, Storing};
use selection::{AxisRule, SliceArg, SliceInfo};
use std::slice;

/// A row of an opening, as a row of the grid.
fn row(words: &[usize]) -> Result<IxDyn, GridFault> {
    Ok(at_call(IxDyn::new(words), GridCall::Open)?)
}

/// The strides of an opening, as a row of the grid.
fn strides(given: &Strides<Vec<usize>>) -> Result<Strides<IxDyn>, GridFault> {
    match given {
        Strides::C => Ok(Strides::C),
        Strides::F => Ok(Strides::F),
        Strides::Custom(words) => row(words.as_slice()).map(Strides::Custom),
    }
}

/// The layout that an opening asks for.
pub(crate) fn opened(opening: &Opening) -> Result<Layout, GridFault> {
    let lens = row(opening.lens.as_slice())?;
    let strides = strides(&opening.strides)?;
    Layout::open(opening.cells, opening.size, &lens, &strides)
}

/// Makes a change of a grid, as a history of one call.
pub(crate) fn changed(layout: &mut Layout, change: &Change) -> Result<Outcome, GridFault> {
    let mut said = [Ok(Outcome::No)];
    let _ = replay(layout, slice::from_ref(change), &mut said);
    said[0]
}

/// The selection that a rule makes.
pub(crate) fn ruled(ruling: Ruling) -> Result<Answer, Refusal> {
    let rule = AxisRule::new(ruling.rank, ruling.axis, ruling.range).map_err(Fault::Rule)?;
    Ok(Answer::Ruled(rule))
}

/// The counts of a selection that is stored.
pub(crate) fn stored(storing: &Storing) -> Result<Answer, Refusal> {
    let elems = storing.selection.elems.as_slice();
    let info = SliceInfo::new(elems, storing.in_dim, storing.out_dim).map_err(Fault::Info)?;
    Ok(Answer::Counted(info.in_ndim(), info.out_ndim()))
}
