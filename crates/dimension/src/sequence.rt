ghost use Rattle.dimension.specs.Owed.{owed_reverse};
ghost use Rattle.std.specs.Prelude.{reverse};

use crate::dimension_trait::Dimension;

/// A row read and written from its last word to its first.
#[derive(Clone, Copy)]
pub struct Reverse<D>(pub D);

impl<D: Dimension> Dimension for Reverse<D> {
    ghost words = { λ x. reverse (D.Dimension.words x.0) };

    ghost rank = { D.Dimension.rank };

    ghost owed = { λ x. owed_reverse D.Dimension.rank (D.Dimension.words x.0) (D.Dimension.owed x.0) };

    fn fixed() -> Option<usize> {
        D::fixed()
    }

    fn ndim(&self) -> usize {
        self.0.ndim()
    }

    fn get(&self, place: usize) -> Option<usize> {
        let count = self.0.ndim();
        if place < count {
            self.0.get(count - 1 - place)
        } else {
            None
        }
    }

    fn set(&mut self, place: usize, word: usize) -> bool {
        let count = self.0.ndim();
        if place < count {
            self.0.set(count - 1 - place, word)
        } else {
            false
        }
    }
}
