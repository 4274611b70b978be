ghost use Rattle.std.specs.Prelude.{◌≡◌};
ghost use Rattle.selection.specs.Errors.{slice_number, slice_place};

/// Why a selection is refused, with the place of the element where one is named.
#[derive(Clone, Copy, PartialEq, Eq, Debug)]
pub enum SliceFault {
    IncompatibleShape,
    RankLimit,
    AxisCount,
    Outside(usize),
    BadStep(usize),
}

impl SliceFault {
    /// The number that stands for the fault.
    // A match, so that each number stands beside its fault.
    pub fn number(&self) -> u8
        ensures { result ≡ slice_number self.now }
    {
        match self {
            SliceFault::IncompatibleShape => 1,
            SliceFault::RankLimit => 11,
            SliceFault::AxisCount => 13,
            SliceFault::Outside(_) => 14,
            SliceFault::BadStep(_) => 15,
        }
    }

    /// The place that the fault names, if it names one.
    pub fn place(&self) -> Option<usize>
        ensures { result ≡ slice_place self.now }
    {
        match self {
            SliceFault::Outside(place) | SliceFault::BadStep(place) => Some(*place),
            _ => None,
        }
    }
}
