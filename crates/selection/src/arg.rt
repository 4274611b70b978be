ghost use Rattle.std.specs.Prelude.{◌≡◌, ℕ, ◌^◌, ◌<◌, List, length};
ghost use Rattle.std.specs.List.{slice_get};
ghost use Rattle.laws.specs.Elements.{Elem};
ghost use Rattle.selection.specs.Args.{Counted};
ghost use Rattle.selection.specs.Slices.{meant};
ghost use Rattle.selection.specs.Walks.{elems_left};

use crate::elems::Elems;
use crate::slice::SliceInfoElem;

/// A selection has elements in an order, and other code may go by nothing else of it.
pub trait SliceArg {
    /// The elements, in order.
    ghost elems: { Self → List Elem };

    /// How many axes the selection says that it takes.
    ghost ins: { Self → ℕ };

    /// How many axes the selection says that it leaves.
    ghost outs: { Self → ℕ };

    /// The two numbers are the counts of the list.
    ghost owed: { (x : Self) → Counted (elems x) (ins x) (outs x) };

    /// How many elements the selection has.
    fn len(&self) -> usize
        ensures { result ≡ length (elems self.now) };

    /// The element at a place of the list, if it has such a place.
    fn elem(&self, place: usize) -> Option<SliceInfoElem>
        ensures { meant result ≡ slice_get (elems self.now) place };

    /// The elements, one after another.
    final fn iter(&self) -> Elems<'_, Self>
    where
        Self: Sized,
        ensures elems { elems_left elems result ≡ elems self.now }
        ensures bound { length (elems self.now) < 2 ^ 64 }
    {
        Elems {
            sel: self,
            places: 0..self.len(),
        }
    }

    /// How many axes the selection takes.
    fn in_ndim(&self) -> usize
        ensures { result ≡ ins self.now };

    /// How many axes the selection leaves.
    fn out_ndim(&self) -> usize
        ensures { result ≡ outs self.now };
}
