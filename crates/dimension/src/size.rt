ghost use Rattle.std.specs.Prelude.{◌≡◌, ◌-◌, ◌^◌, ◌≤◌, nat_le, slice_index};
ghost use Rattle.laws.specs.Lengths.{product, nonzeros, some_zero};
ghost use Rattle.laws.specs.Opening.{sized};
ghost use Rattle.dimension.specs.Errors.{answered};
ghost use Rattle.dimension.specs.Reach.{worded};

use crate::dimension_trait::Dimension;
use crate::dynindeximpl::IxDyn;
use crate::error::RowFault;

/// The most that a size, a reach or a count of bytes may be.
pub(crate) const MOST: usize = 9_223_372_036_854_775_807;

/// The most that a grid's cells, size and strides may be.
pub const LIMIT: usize = 1_048_576;

/// The word at a place, or 0 where the row has no such place.
pub fn word_at<D: Dimension>(row: &D, place: usize) -> usize
    ensures { result ≡ slice_index (D.Dimension.words row.now) place }
{
    row.get(place).unwrap_or(0)
}

/// Whether some length is 0.
fn has_zero(lens: &[usize]) -> bool
    ensures { result ≡ some_zero lens.now }
{
    lens.contains(&0)
}

/// Whether some length is 0, so that a grid of these lengths has no cells.
pub fn is_empty<D: Dimension>(dim: &D) -> bool
    ensures { result ≡ some_zero (D.Dimension.words dim.now) }
{
    has_zero(IxDyn::copy_of(dim).as_slice())
}

/// The product of the lengths, 1 in place of each 0, if it is a word.
fn nonzero_product(lens: &[usize]) -> Option<usize>
    ensures { result ≡ worded (nonzeros lens.now) }
{
    let mut whole: usize = 1;
    for length in lens {
        whole = whole.checked_mul((*length).max(1))?;
    }
    Some(whole)
}

/// Whether the product of the nonzero lengths is within a limit.
pub fn lengths_within<D: Dimension>(dim: &D, limit: usize) -> bool
    ensures { result ≡ nat_le (nonzeros (D.Dimension.words dim.now)) limit }
{
    nonzero_product(IxDyn::copy_of(dim).as_slice()).is_some_and(|whole| whole <= limit)
}

/// The number of elements of lengths, whose nonzero ones have a product within 63 bits.
pub(crate) fn checked_size(lens: &[usize]) -> Result<usize, RowFault>
    ensures { answered (λ n. n) result ≡ sized lens.now }
{
    let whole = nonzero_product(lens).unwrap_or(usize::MAX);
    if whole > MOST {
        return Err(RowFault::Overflow);
    }
    Ok(if has_zero(lens) { 0 } else { whole })
}

/// The number of elements of a shape, whose nonzero lengths have a product within 63 bits.
pub fn size_of_shape_checked<D: Dimension>(dim: &D) -> Result<usize, RowFault>
    ensures { answered (λ n. n) result ≡ sized (D.Dimension.words dim.now) }
{
    checked_size(IxDyn::copy_of(dim).as_slice())
}
