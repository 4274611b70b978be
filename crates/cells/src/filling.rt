ghost use Rattle.std.specs.Prelude.{◌≡◌, length, MatchResult};
ghost use Rattle.laws.specs.Faults.{unless};
ghost use Rattle.laws.specs.Filling.{Filled, filled, lent};
ghost use Rattle.laws.specs.Slicing.{sliced};
ghost use Rattle.laws.specs.Posting.{post_fault, posted};
ghost use Rattle.grid.specs.declared.error.GridCall.TheVariants.{Fill};
ghost use Rattle.grid.specs.Errors.{answered, calling};
ghost use Rattle.grid.specs.Layouts.{seen};

use crate::lent::check_lent;
use crate::walk::{first_index, next_for};
use grid::{GridCall, GridFault, Layout};
use selection::SliceArg;

/// Writes one value to every cell of the grid, and to no cell besides.
pub fn fill<T: Copy>(layout: &Layout, cells: &mut [T], value: T) -> Result<(), GridFault>
    ensures answer { answered (λ u. u) result ≡ calling Fill (lent (seen layout.now) (length cells.old)) }
    ensures after { cells.new ≡ filled (seen layout.now) value cells.old }
    ensures law { MatchResult result (λ _. Filled (seen layout.now) value cells.old cells.new) (λ _. cells.new ≡ cells.old) }
{
    check_lent(layout, cells.len(), GridCall::Fill)?;
    let lens = layout.lens();
    let mut next = first_index(&lens);
    // A walk and no iterator, since its law goes by the tuple's number.
    while let Some(index) = next {
        let at = layout.stride_offset(index.as_slice());
        cells[at] = value;
        next = next_for(&lens, index);
    }
    Ok(())
}

/// Writes one value to every cell that a selection takes of the grid, and to no cell besides.
pub fn fill_selection<T: Copy, S: SliceArg>(
    layout: &Layout,
    sel: &S,
    cells: &mut [T],
    value: T,
) -> Result<(), GridFault>
    ensures answer { answered (λ u. u) result ≡ calling Fill (unless (post_fault (S.SliceArg.elems sel.now) (seen layout.now) (length cells.old)) tt) }
    ensures after { cells.new ≡ posted (S.SliceArg.elems sel.now) (seen layout.now) value cells.old }
    ensures law { MatchResult result (λ _. Filled (sliced (S.SliceArg.elems sel.now) (seen layout.now)) value cells.old cells.new) (λ _. cells.new ≡ cells.old) }
{
    check_lent(layout, cells.len(), GridCall::Fill)?;
    let slice = layout.slice_move(sel).map_err(|fault| GridFault {
        call: GridCall::Fill,
        ..fault
    })?;
    fill(&slice, cells, value)
}
