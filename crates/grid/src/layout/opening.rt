ghost use Rattle.std.specs.Prelude.{◌≡◌, not, [], ◌∷◌, length, pos, IfOk, if◌then◌else◌, Ok, ◌==◌, nat_le, nat_lt};
ghost use Rattle.laws.specs.Lengths.{product, nonzeros};
ghost use Rattle.laws.specs.Strides.{signed};
ghost use Rattle.laws.specs.Space.{Sound};
ghost use Rattle.laws.specs.Faults.{in_rows, refuse};
ghost use Rattle.laws.specs.Opening.{limit, some_above, fresh, ordered, strided, opening};
ghost use Rattle.dimension.specs.Errors.{answered as rowAnswered};
ghost use Rattle.dimension.specs.Rows.{listed, strides_of};
ghost use Rattle.grid.specs.Errors.{answered, calling, cause_fault, told};
ghost use Rattle.grid.specs.Layouts.{seen, given, in_order, shaped, reaching};

use super::Layout;
use super::overlap::Axes;
use crate::error::{Cause, GridCall, GridFault, at_call};
use crate::shape_builder::Strides;
use dimension::{
    Dim, Dimension, IxDyn, LIMIT, Order, RowFault, default_strides, fortran_strides,
    lengths_within, max_abs_offset_check_overflow, size_of_shape_checked, strides_non_negative,
    strides_within,
};

/// Why opening is refused.
fn refused(cause: Cause) -> GridFault
    ensures { told result ≡ record { fault = cause_fault cause; call = GridCall.Open } }
{
    GridFault {
        cause,
        call: GridCall::Open,
    }
}

/// Whether the nonzero lengths of a shape of this size have a product within the limit.
// A size that is not 0 is that product.
fn is_small<D: Dimension>(dim: &D, size: usize) -> bool
    requires { size ≡ product (D.Dimension.words dim.now) }
    ensures { result ≡ nat_le (nonzeros (D.Dimension.words dim.now)) limit }
{
    if size == 0 {
        lengths_within(dim, LIMIT)
    } else {
        size <= LIMIT
    }
}

/// Makes the checks of an order that concern the rows alone, and answers the size.
fn check_shape<D: Dimension>(cells: usize, dim: &D) -> Result<usize, RowFault>
    ensures { rowAnswered (λ n. n) result ≡ shaped cells (D.Dimension.words dim.now) }
{
    if cells > LIMIT {
        return Err(RowFault::SizeLimit);
    }
    let size = size_of_shape_checked(dim)?;
    if !is_small(dim, size) {
        return Err(RowFault::SizeLimit);
    }
    Ok(size)
}

/// Makes the checks of a stride row that concern the rows alone, and answers the reach.
fn check_row<D: Dimension, S: Dimension>(
    cells: usize,
    size: usize,
    dim: &D,
    row: &S,
) -> Result<usize, RowFault>
    ensures { rowAnswered (λ n. n) result ≡ reaching cells size (D.Dimension.words dim.now) (signed (S.Dimension.words row.now)) }
{
    if cells > LIMIT {
        return Err(RowFault::SizeLimit);
    }
    if dim.ndim() != row.ndim() {
        return Err(RowFault::IncompatibleLayout);
    }
    strides_non_negative(row)?;
    let far = max_abs_offset_check_overflow(size, dim, row)?;
    if !lengths_within(dim, LIMIT) || !strides_within(row, LIMIT) {
        return Err(RowFault::SizeLimit);
    }
    Ok(far)
}

/// Whether a reach leaves the cells; a grid without cells may end where they end.
fn too_few(cells: usize, far: usize, empty: bool) -> bool
    ensures { result ≡ (if empty then nat_lt cells far else nat_le cells far) }
{
    if empty { far > cells } else { far >= cells }
}

/// The strides of an order.
// An order is looked at once, and each arm calls another function.
fn strides_in<D: Dimension>(dim: &D, order: Order) -> Result<D, RowFault>
    ensures { rowAnswered D.Dimension.words result ≡ strides_of (in_order order) (D.Dimension.words dim.now) }
{
    match order {
        Order::RowMajor => default_strides(dim),
        Order::ColumnMajor => fortran_strides(dim),
    }
}

/// Opens in an order.
fn open_ordered<D: Dimension>(cells: usize, dim: &D, order: Order) -> Result<Layout, GridFault>
    ensures { answered seen result ≡ calling GridCall.Open (ordered cells (D.Dimension.words dim.now) (in_order order (D.Dimension.words dim.now))) }
{
    let size = at_call(check_shape(cells, dim), GridCall::Open)?;
    if cells < size {
        return Err(refused(Cause::OutOfBounds));
    }
    let lens = IxDyn::copy_of(dim);
    let strides = at_call(strides_in(&lens, order), GridCall::Open)?;
    Ok(Layout {
        cells,
        start: 0,
        lens,
        strides,
    })
}

/// Makes the checks of a stride row, in their order.
fn can_index_slice(
    cells: usize,
    size: usize,
    lens: &IxDyn,
    strides: &IxDyn,
) -> Result<(), GridFault>
    ensures { answered (λ _. fresh cells (listed lens.now) (signed (listed strides.now))) result ≡ calling GridCall.Open (strided cells size (listed lens.now) (signed (listed strides.now))) }
{
    let far = at_call(check_row(cells, size, lens, strides), GridCall::Open)?;
    let axes = Axes {
        lens: lens.as_slice(),
        strides: strides.as_slice(),
    };
    if too_few(cells, far, axes.is_empty()) {
        return Err(refused(Cause::OutOfBounds));
    }
    if axes.overlap() {
        return Err(refused(Cause::Rows(RowFault::Unsupported)));
    }
    Ok(())
}

/// Opens with a stride row.
fn open_strided<D: Dimension, S: Dimension>(
    cells: usize,
    size: usize,
    dim: &D,
    row: &S,
) -> Result<Layout, GridFault>
    ensures { answered seen result ≡ calling GridCall.Open (strided cells size (D.Dimension.words dim.now) (signed (S.Dimension.words row.now))) }
{
    let lens = IxDyn::copy_of(dim);
    let strides = IxDyn::copy_of(row);
    can_index_slice(cells, size, &lens, &strides)?;
    Ok(Layout {
        cells,
        start: 0,
        lens,
        strides,
    })
}

impl Layout {
    /// The grid of length 0 over no cells.
    pub fn blank() -> Layout
        ensures { seen result ≡ fresh 0 (0 ∷ []) (pos 0 ∷ []) }
    {
        let row = IxDyn::copy_of(&Dim { index: [0] });
        Layout {
            cells: 0,
            start: 0,
            lens: row,
            strides: row,
        }
    }

    /// Opens a grid over this many cells of this size, with these lengths, from cell 0 on.
    pub fn open<D: Dimension, S: Dimension>(
        cells: usize,
        size: usize,
        dim: &D,
        strides: &Strides<S>,
    ) -> Result<Layout, GridFault>
        ensures answer { answered seen result ≡ calling GridCall.Open (opening cells size (D.Dimension.words dim.now) (given S.Dimension.words strides.now)) }
        ensures law { IfOk result (λ layout. Sound (seen layout)) }
    {
        match strides {
            Strides::C => open_ordered(cells, dim, Order::RowMajor),
            Strides::F => open_ordered(cells, dim, Order::ColumnMajor),
            Strides::Custom(row) => open_strided(cells, size, dim, row),
        }
    }
}
