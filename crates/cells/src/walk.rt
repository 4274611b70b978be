ghost use Rattle.std.specs.Prelude.{◌≡◌, ◌+◌, MatchOption};
ghost use Rattle.laws.specs.Lengths.{product};
ghost use Rattle.laws.specs.Tuples.{Within, place};
ghost use Rattle.dimension.specs.Rows.{listed};

use dimension::{Dimension, IxDyn, is_empty, word_at};

/// The first tuple within the lengths, if there is one.
pub(crate) fn first_index(dim: &IxDyn) -> Option<IxDyn>
    ensures { MatchOption result (product (listed dim.now) ≡ 0) (λ ix. Within (listed ix) (listed dim.now) × (place (listed ix) (listed dim.now) ≡ 0)) }
{
    if is_empty(dim) {
        return None;
    }
    IxDyn::zeros(dim.ndim()).ok()
}

/// The tuple after another one, the last axis fastest, if there is one.
pub(crate) fn next_for<D: Dimension>(dim: &D, index: D) -> Option<D>
    requires { Within (D.Dimension.words index) (D.Dimension.words dim.now) }
    ensures { MatchOption result (place (D.Dimension.words index) (D.Dimension.words dim.now) + 1 ≡ product (D.Dimension.words dim.now)) (λ ix. Within (D.Dimension.words ix) (D.Dimension.words dim.now) × (place (D.Dimension.words ix) (D.Dimension.words dim.now) ≡ place (D.Dimension.words index) (D.Dimension.words dim.now) + 1)) }
{
    let mut index = index;
    // The tuple is read and written at the axis, so the loop goes over axes.
    for axis in (0..dim.ndim()).rev() {
        let length = word_at(dim, axis);
        let next = word_at(&index, axis) + 1;
        if next == length {
            let _ = index.set(axis, 0);
        } else {
            let _ = index.set(axis, next);
            return Some(index);
        }
    }
    None
}
