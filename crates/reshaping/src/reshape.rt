ghost use Rattle.std.specs.Prelude.{◌≡◌, ◌≤◌, not, Ok};
ghost use Rattle.laws.specs.Lengths.{nonzeros};
ghost use Rattle.laws.specs.Strides.{signed};
ghost use Rattle.laws.specs.Reshaping.{regrouped_in, Ready};
ghost use Rattle.dimension.specs.Errors.{answered};
ghost use Rattle.dimension.specs.Rows.{listed};
ghost use Rattle.reshaping.specs.Reshapes.{order_of, gridlike, resized, guarded};

use crate::walk::reshape_dim_c;
use dimension::{
    Dimension, IxDyn, LIMIT, Order, Reverse, RowFault, lengths_within,
    max_abs_offset_check_overflow, size_of_shape_checked,
};

/// Whether lengths and strides are such as every grid has.
fn gridlike<F: Dimension, S: Dimension>(from: &F, strides: &S) -> bool
    ensures { result ≡ gridlike (F.Dimension.words from.now) (signed (S.Dimension.words strides.now)) }
{
    lengths_within(from, LIMIT)
        && max_abs_offset_check_overflow(1, from, strides).is_ok_and(|far| far <= LIMIT)
}

/// The size of the new lengths, which is that of the old ones.
fn same_size<F: Dimension, E: Dimension>(from: &F, to: &E) -> Result<usize, RowFault>
    requires { nonzeros (F.Dimension.words from.now) ≤ 1048576 }
    ensures { answered (λ n. n) result ≡ resized (F.Dimension.words from.now) (E.Dimension.words to.now) }
{
    let size = size_of_shape_checked(to)?;
    if !lengths_within(to, LIMIT) {
        return Err(RowFault::SizeLimit);
    }
    let old = size_of_shape_checked(from)?;
    if size != old {
        return Err(RowFault::IncompatibleShape);
    }
    Ok(size)
}

/// The strides of the new lengths, where the sizes are equal and not 0.
// Three rows, as the call that users know takes them; the other order turns all three round.
fn regrouped_in<F: Dimension, S: Dimension, E: Dimension>(
    from: &F,
    strides: &S,
    to: &E,
    order: Order,
) -> Result<IxDyn, RowFault>
    requires { Ready (F.Dimension.words from.now) (signed (S.Dimension.words strides.now)) (E.Dimension.words to.now) }
    ensures { answered (λ row. signed (listed row)) result ≡ regrouped_in (order_of order) (F.Dimension.words from.now) (signed (S.Dimension.words strides.now)) (E.Dimension.words to.now) }
{
    match order {
        Order::RowMajor => reshape_dim_c(from, strides, to),
        Order::ColumnMajor => {
            let out = reshape_dim_c(&Reverse(*from), &Reverse(*strides), &Reverse(*to))?;
            Ok(IxDyn::copy_of(&Reverse(out)))
        }
    }
}

/// The strides of other lengths over the same cells, the tuples counted in an order.
pub fn reshape_dim<F: Dimension, S: Dimension, E: Dimension>(
    from: &F,
    strides: &S,
    to: &E,
    order: Order,
) -> Result<IxDyn, RowFault>
    ensures answer { answered (λ row. signed (listed row)) result ≡ guarded (order_of order) (F.Dimension.words from.now) (signed (S.Dimension.words strides.now)) (E.Dimension.words to.now) }
{
    if !gridlike(from, strides) {
        return Err(RowFault::IncompatibleLayout);
    }
    let size = same_size(from, to)?;
    if size == 0 {
        return IxDyn::zeros(to.ndim());
    }
    regrouped_in(from, strides, to, order)
}
