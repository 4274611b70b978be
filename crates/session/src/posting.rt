ghost use Rattle.std.specs.Prelude.{◌≡◌, T};

use dimension::size_of_shape_checked;
use grid::Layout;
use script::{Change, Filling, Selection, Value};
use std::fmt;

/// How many cells a grid has; a layout's lengths are never too long to count.
pub(crate) fn grid_size(layout: &Layout) -> usize {
    size_of_shape_checked(&layout.lens()).unwrap_or(0)
}

/// How many cells a filling writes: all of the grid, or those of its slice by the selection.
fn filled_size(layout: &Layout, selection: &Option<Selection>) -> usize {
    match selection {
        None => grid_size(layout),
        Some(selection) => layout
            .slice_move(selection)
            .map_or(0, |slice| grid_size(&slice)),
    }
}

/// A filling that was done: what it wrote where, how many cells it wrote, and how many times in a row.
#[derive(Drop)]
pub(crate) struct Filled {
    selection: Option<Selection>,
    value: Value,
    cells: usize,
    times: u64,
}

impl Filled {
    /// Whether this filling was the same.
    fn is_same(&self, filling: &Filling) -> bool
        ensures { T result → self.now.value ≡ filling.now.value.value }
    {
        self.value == filling.value.value && self.selection == filling.selection
    }
}

/// What was done to an open grid: a filling, or a change of the grid itself.
#[derive(Drop)]
pub(crate) enum Posting {
    Filled(Filled),
    Changed(Change),
}

impl Posting {
    /// Notes a filling; where the last posting was the same filling, that one counts once more.
    pub(crate) fn note(posted: &mut Vec<Posting>, filling: Filling, layout: &Layout) {
        if let Some(Posting::Filled(last)) = posted.last_mut() {
            if last.is_same(&filling) {
                last.times = last.times.saturating_add(1);
                return;
            }
        }
        let Filling { selection, value } = filling;
        let cells = filled_size(layout, &selection);
        let _ = posted.push(Posting::Filled(Filled {
            selection,
            value: value.value,
            cells,
            times: 1,
        }));
    }
}

impl fmt::Display for Filled {
    fn fmt<W: fmt::Write>(&self, f: &mut fmt::Formatter<W>) -> fmt::Result {
        let cells = self.cells;
        let times = self.times;
        let value = self.value;
        write!(f, "{cells:>8}{times:>12}  {value}")?;
        match &self.selection {
            Some(selection) => write!(f, " in {selection}"),
            None => Ok(()),
        }
    }
}

impl fmt::Display for Posting {
    fn fmt<W: fmt::Write>(&self, f: &mut fmt::Formatter<W>) -> fmt::Result {
        match self {
            Posting::Filled(filled) => write!(f, "          {filled}"),
            Posting::Changed(change) => write!(f, "                                {change}"),
        }
    }
}
