ghost use Rattle.std.specs.Prelude.{◌≡◌, ◌+◌, ◌-◌, ◌*◌, ◌^◌, ◌≤◌, not, T, length, pos, ◌+ℤ◌, ◌*ℤ◌, nat_le, nat_lt, unsigned_abs};
ghost use Rattle.std.specs.Int.{w64};
ghost use Rattle.std.specs.List.{list_all, list_any};
ghost use Rattle.std.proofs.Common.{to_z};
ghost use Rattle.laws.specs.Space.{inside};
ghost use Rattle.laws.specs.Strides.{signed, onward};
ghost use Rattle.laws.specs.Opening.{span, reached, non_negative, some_above};
ghost use Rattle.laws.specs.Merging.{same_stride};
ghost use Rattle.dimension.specs.Errors.{answered};
ghost use Rattle.dimension.specs.Reach.{worded};

use crate::dimension_trait::Dimension;
use crate::dynindeximpl::IxDyn;
use crate::error::RowFault;
use crate::size::{MOST, checked_size};

/// The magnitude of a stride, which is kept as its word of two's complement.
pub fn magnitude(word: usize) -> usize
    ensures { result ≡ unsigned_abs (to_z w64 word) }
{
    word.cast_signed().unsigned_abs()
}

/// The cell so many strides on, counted in 64 bits.
pub fn stride_offset(from: usize, index: usize, stride: usize) -> usize
    ensures answer { result ≡ onward from index stride }
    ensures law { T (inside (2 ^ 64) (pos from +ℤ pos index *ℤ to_z w64 stride)) → pos result ≡ pos from +ℤ pos index *ℤ to_z w64 stride }
{
    from.wrapping_add(index.wrapping_mul(stride))
}

/// Whether a stride is a length times another stride, whatever the words.
pub fn in_step(stride: usize, length: usize, other: usize) -> bool
    ensures { result ≡ same_stride (to_z w64 stride) (pos length *ℤ to_z w64 other) }
{
    stride.cast_signed() as i128 == length as i128 * other.cast_signed() as i128
}

/// The reach of two rows of one rank, if it is a word.
fn checked_reach(lens: &[usize], strides: &[usize]) -> Option<usize>
    requires { length lens.now ≡ length strides.now }
    ensures { result ≡ worded (span lens.now (signed strides.now)) }
{
    let mut far: usize = 0;
    for (length, stride) in lens.iter().zip(strides) {
        let most = length.saturating_sub(1);
        far = far.checked_add(most.checked_mul(magnitude(*stride))?)?;
    }
    Some(far)
}

/// The reach of a shape with strides, which in bytes is within 63 bits too.
pub fn max_abs_offset_check_overflow<D: Dimension, S: Dimension>(
    size: usize,
    dim: &D,
    strides: &S,
) -> Result<usize, RowFault>
    ensures { answered (λ n. n) result ≡ reached size (D.Dimension.words dim.now) (signed (S.Dimension.words strides.now)) }
{
    if dim.ndim() != strides.ndim() {
        return Err(RowFault::IncompatibleLayout);
    }
    let lens = IxDyn::copy_of(dim);
    let row = IxDyn::copy_of(strides);
    checked_size(lens.as_slice())?;
    let far = checked_reach(lens.as_slice(), row.as_slice()).ok_or(RowFault::Overflow)?;
    let bytes = far.checked_mul(size).ok_or(RowFault::Overflow)?;
    if far > MOST || bytes > MOST {
        return Err(RowFault::Overflow);
    }
    Ok(far)
}

/// Whether some word stands for a negative number in two's complement.
fn has_negative(strides: &[usize]) -> bool
    ensures { result ≡ list_any (λ w. nat_lt 9223372036854775807 w) strides.now }
{
    strides.iter().any(|word| *word > MOST)
}

/// Refuses a row with a negative stride.
pub fn strides_non_negative<S: Dimension>(strides: &S) -> Result<(), RowFault>
    ensures { answered (λ u. u) result ≡ non_negative (signed (S.Dimension.words strides.now)) }
{
    if has_negative(IxDyn::copy_of(strides).as_slice()) {
        return Err(RowFault::Unsupported);
    }
    Ok(())
}

/// Whether each word stands for a number in two's complement whose magnitude is within a limit.
fn all_within(strides: &[usize], limit: usize) -> bool
    ensures { result ≡ list_all (λ w. nat_le (unsigned_abs (to_z w64 w)) limit) strides.now }
{
    strides.iter().all(|word| magnitude(*word) <= limit)
}

/// Whether every stride's magnitude is within a limit.
pub fn strides_within<S: Dimension>(strides: &S, limit: usize) -> bool
    ensures { result ≡ not (some_above limit (signed (S.Dimension.words strides.now))) }
{
    all_within(IxDyn::copy_of(strides).as_slice(), limit)
}
