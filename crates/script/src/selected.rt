ghost use Rattle.std.specs.Prelude.{◌≡◌, refl};
ghost use Rattle.laws.specs.Elements.{in_count, out_count};
ghost use Rattle.selection.specs.Slices.{elems_of};

use selection::{Lent, SliceArg, SliceInfoElem};
use std::fmt;

/// A selection of a grid, as it is written.
#[derive(PartialEq, Eq, Drop)]
pub struct Selection {
    pub elems: Vec<SliceInfoElem>,
}

impl Selection {
    /// The elements, lent to a call.
    pub fn lent(&self) -> Lent<'_>
        ensures { result.0.now ≡ self.now.elems.items }
    {
        Lent(self.elems.as_slice())
    }
}

impl SliceArg for Selection {
    ghost elems = { λ x. elems_of x.elems.items };

    ghost ins = { λ x. in_count (elems_of x.elems.items) };

    ghost outs = { λ x. out_count (elems_of x.elems.items) };

    ghost owed = { λ x. record { takes = refl; leaves = refl } };

    fn len(&self) -> usize {
        self.elems.len()
    }

    fn elem(&self, place: usize) -> Option<SliceInfoElem> {
        self.lent().elem(place)
    }

    fn in_ndim(&self) -> usize {
        self.lent().in_ndim()
    }

    fn out_ndim(&self) -> usize {
        self.lent().out_ndim()
    }
}

impl fmt::Display for Selection {
    fn fmt<W: fmt::Write>(&self, f: &mut fmt::Formatter<W>) -> fmt::Result {
        write_selection(f, self)
    }
}

/// Writes a selection of any kind in brackets, with commas and no blanks.
pub fn write_selection<W: fmt::Write, S: SliceArg>(
    f: &mut fmt::Formatter<W>,
    sel: &S,
) -> fmt::Result {
    f.write_str("[")?;
    f.write_joined(sel.iter(), ",")?;
    f.write_str("]")
}
