ghost use Rattle.std.specs.Prelude.{◌≡◌};
ghost use Rattle.laws.specs.Filling.{lent};
ghost use Rattle.grid.specs.Errors.{answered, calling};
ghost use Rattle.grid.specs.Layouts.{seen};

use grid::{Cause, GridCall, GridFault, Layout};

/// Refuses lent cells of which there are more or fewer than the layout was opened over.
pub(crate) fn check_lent(layout: &Layout, count: usize, call: GridCall) -> Result<(), GridFault>
    ensures { answered (λ u. u) result ≡ calling call (lent (seen layout.now) count) }
{
    if count != layout.cell_count() {
        return Err(GridFault {
            cause: Cause::OutOfBounds,
            call,
        });
    }
    Ok(())
}
