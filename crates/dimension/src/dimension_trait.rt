ghost use Rattle.std.specs.Prelude.{◌≡◌, ℕ, List, length, Option, nat_lt, slice_set};
ghost use Rattle.std.specs.List.{slice_get};
ghost use Rattle.dimension.specs.Owed.{Owed};

/// A row has at most eight words, and other code may go by nothing else of it.
pub trait Dimension: Copy {
    /// The row's words, in order.
    ghost words: { Self → List ℕ };

    /// The count that every row of this type has, if there is one.
    ghost rank: { Option ℕ };

    /// At most eight words, and as many as the fixed count says.
    ghost owed: { (x : Self) → Owed rank (words x) };

    /// The count that the type fixes, or none.
    fn fixed() -> Option<usize>
        ensures { result ≡ rank };

    /// How many words the row has.
    fn ndim(&self) -> usize
        ensures { result ≡ length (words self.now) };

    /// The word at a place of the row, if it has such a place.
    fn get(&self, place: usize) -> Option<usize>
        ensures { result ≡ slice_get (words self.now) place };

    /// Writes one word, or says no and leaves the row alone where there is no such place.
    fn set(&mut self, place: usize, word: usize) -> bool
        ensures after { words self.new ≡ slice_set (words self.old) place word }
        ensures answer { result ≡ nat_lt place (length (words self.old)) };
}
