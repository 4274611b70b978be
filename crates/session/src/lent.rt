ghost use Rattle.std.specs.Prelude.{◌≡◌, IfOk, OnErr};
ghost use Rattle.session.specs.Sessions.{SameCells, Zeros};

use crate::cell::Cell;
use crate::refusal::Refusal;
use cells::{PayLine, Reader, fill, fill_selection};
use grid::{GridFault, Layout};
use script::{Expected, Filling, Kind, Value};
use std::alloc::{AllocError, Global};

/// The lent cells, all of one kind.
// An enum, since only the run of a script tells which kind is lent.
#[derive(Drop)]
pub(crate) enum Lent {
    Cents(Vec<i64>),
    Lines(Vec<PayLine>),
}

/// The value at a tuple, of cells of any type.
fn read_cell<T: Cell>(
    cells: &[T],
    layout: &Layout,
    index: &[usize],
) -> Result<Option<Value>, GridFault> {
    let reader = Reader::new(cells, layout)?;
    Ok(reader.get(index).map(|cell| cell.into()))
}

/// Fills the cells of the grid, or of a selection of it where there is one, of cells of any type.
fn fill_cells<T: Cell>(
    cells: &mut Vec<T>,
    layout: &Layout,
    filling: &Filling,
) -> Result<(), Refusal>
    ensures { OnErr result (cells.new.items ≡ cells.old.items) }
{
    let column = filling.value.column;
    let what = T::WANTED;
    let value = T::of(filling.value.value).ok_or(Expected { column, what })?;
    match &filling.selection {
        Some(selection) => fill_selection(layout, selection, cells.as_mut_slice(), value)?,
        None => fill(layout, cells.as_mut_slice(), value)?,
    }
    Ok(())
}

impl Lent {
    /// So many cells of a kind, all 0.
    pub(crate) fn new(heap: Global, count: usize, kind: Kind) -> Result<Lent, AllocError>
        ensures { IfOk result (λ lent. Zeros count kind lent) }
    {
        match kind {
            Kind::Cents => Ok(Lent::Cents(Vec::from_elem(heap, 0, count)?)),
            Kind::Lines => Ok(Lent::Lines(Vec::from_elem(heap, PayLine::default(), count)?)),
        }
    }

    /// A copy of every cell.
    pub(crate) fn copied(&self, heap: Global) -> Result<Lent, AllocError>
        ensures { IfOk result (λ lent. SameCells self.now lent) }
    {
        match self {
            Lent::Cents(cells) => Ok(Lent::Cents(Vec::from_slice(heap, cells.as_slice())?)),
            Lent::Lines(cells) => Ok(Lent::Lines(Vec::from_slice(heap, cells.as_slice())?)),
        }
    }

    /// Fills cells of the grid; a value of another kind than the cells is refused at its column.
    pub(crate) fn fill(&mut self, layout: &Layout, filling: &Filling) -> Result<(), Refusal>
        ensures { OnErr result (SameCells self.old self.new) }
    {
        match self {
            Lent::Cents(cells) => fill_cells(cells, layout, filling),
            Lent::Lines(cells) => fill_cells(cells, layout, filling),
        }
    }

    /// The value at a tuple of the grid, or none where the tuple is not within its lengths.
    pub(crate) fn read(
        &self,
        layout: &Layout,
        index: &[usize],
    ) -> Result<Option<Value>, GridFault> {
        match self {
            Lent::Cents(cells) => read_cell(cells.as_slice(), layout, index),
            Lent::Lines(cells) => read_cell(cells.as_slice(), layout, index),
        }
    }
}
