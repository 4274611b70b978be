ghost use Rattle.std.specs.Prelude.{◌≡◌, ◌-◌, ◌^◌, ◌≤◌};
ghost use Rattle.laws.specs.Lengths.{product, nonzeros};
ghost use Rattle.laws.specs.Strides.{row_major, column_major};
ghost use Rattle.dimension.specs.Errors.{answered};
ghost use Rattle.dimension.specs.Rows.{strides_of};

use crate::dimension_trait::Dimension;
use crate::error::RowFault;
use crate::sequence::Reverse;
use crate::size::{size_of_shape_checked, word_at};

/// Row-major strides of a shape of this size, which fits.
fn row_major<D: Dimension>(dim: &D, size: usize) -> D
    requires fits { nonzeros (D.Dimension.words dim.now) ≤ 2 ^ 63 - 1 }
    requires size { size ≡ product (D.Dimension.words dim.now) }
    ensures { D.Dimension.words result ≡ row_major (D.Dimension.words dim.now) }
{
    let mut out = *dim;
    let mut step = size.min(1);
    // `set` takes a place, so the loop goes over places.
    for place in (0..dim.ndim()).rev() {
        let _ = out.set(place, step);
        step *= word_at(dim, place);
    }
    out
}

/// Row-major strides: for each axis, what the lengths after it multiply to.
pub fn default_strides<D: Dimension>(dim: &D) -> Result<D, RowFault>
    ensures { answered D.Dimension.words result ≡ strides_of row_major (D.Dimension.words dim.now) }
{
    let size = size_of_shape_checked(dim)?;
    Ok(row_major(dim, size))
}

/// Column-major strides: for each axis, what the lengths before it multiply to.
pub fn fortran_strides<D: Dimension>(dim: &D) -> Result<D, RowFault>
    ensures { answered D.Dimension.words result ≡ strides_of column_major (D.Dimension.words dim.now) }
{
    let size = size_of_shape_checked(dim)?;
    let Reverse(strides) = row_major(&Reverse(*dim), size);
    Ok(strides)
}
