ghost use Rattle.std.specs.Prelude.{◌≡◌, ◌≤◌, length, Some};

use crate::dimension_trait::Dimension;

/// A row whose count of words, at most eight, is fixed by its type.
#[derive(Clone, Copy, PartialEq, Eq, Debug)]
pub struct Dim<const N: usize> {
    pub index: [usize; N],
    ghost few: { N ≤ 8 },
    ghost full: { length index ≡ N },
}

/// A row of one word.
pub type Ix1 = Dim<1>;

/// A row of two words.
pub type Ix2 = Dim<2>;

impl<const N: usize> Dimension for Dim<N> {
    ghost use Rattle.dimension.specs.Owed.{owed_fixed};

    ghost words = { λ x. x.index };

    ghost rank = { Some N };

    ghost owed = { λ x. owed_fixed N x.index x.few x.full };

    fn fixed() -> Option<usize> {
        Some(N)
    }

    fn ndim(&self) -> usize {
        N
    }

    fn get(&self, place: usize) -> Option<usize> {
        self.index.get(place).copied()
    }

    fn set(&mut self, place: usize, word: usize) -> bool {
        let within = place < N;
        if within {
            self.index[place] = word;
        }
        within
    }
}
