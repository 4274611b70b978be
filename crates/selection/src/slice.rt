ghost use Rattle.std.specs.Prelude.{◌≡◌};
ghost use Rattle.selection.specs.Slices.{elem_of, is_index, is_new_axis};

use std::fmt;

/// A range on an axis: where it starts and ends, and in which steps it goes.
#[derive(Clone, Copy, PartialEq, Eq, Debug)]
pub struct Slice {
    pub start: isize,
    pub end: Option<isize>,
    pub step: isize,
}

impl Slice {
    /// The range that takes a whole axis.
    pub const WHOLE: Slice = Slice {
        start: 0,
        end: None,
        step: 1,
    };
}

impl fmt::Display for Slice {
    /// Its start unless that is 0, its end if it has one, its step unless that is 1.
    fn fmt<W: fmt::Write>(&self, f: &mut fmt::Formatter<W>) -> fmt::Result {
        if self.start != 0 {
            write!(f, "{}", self.start)?;
        }
        f.write_str("..")?;
        if let Some(end) = self.end {
            write!(f, "{end}")?;
        }
        if self.step != 1 {
            write!(f, ";{}", self.step)?;
        }
        Ok(())
    }
}

/// One element of a selection: it takes a range of an axis or one index of it, or adds an axis.
#[derive(Clone, Copy, PartialEq, Eq, Debug)]
pub enum SliceInfoElem {
    Slice(Slice),
    Index(isize),
    NewAxis,
}

impl fmt::Display for SliceInfoElem {
    fn fmt<W: fmt::Write>(&self, f: &mut fmt::Formatter<W>) -> fmt::Result {
        match self {
            SliceInfoElem::Slice(range) => write!(f, "{range}"),
            SliceInfoElem::Index(index) => write!(f, "{index}"),
            SliceInfoElem::NewAxis => f.write_str("NewAxis"),
        }
    }
}

impl SliceInfoElem {
    /// Whether the element is an index.
    pub fn is_index(&self) -> bool
        ensures { result ≡ is_index (elem_of self.now) }
    {
        matches!(self, SliceInfoElem::Index(_))
    }

    /// Whether the element is a new axis.
    pub fn is_new_axis(&self) -> bool
        ensures { result ≡ is_new_axis (elem_of self.now) }
    {
        matches!(self, SliceInfoElem::NewAxis)
    }
}
