ghost use Rattle.std.specs.Prelude.{◌≡◌};
ghost use Rattle.dimension.specs.Errors.{layer_of, row_number};

use std::fmt;

/// The layer where a fault arose.
#[derive(Clone, Copy, PartialEq, Eq, Debug)]
pub enum Layer {
    Rows,
    Selection,
    Grid,
}

impl fmt::Display for Layer {
    fn fmt<W: fmt::Write>(&self, f: &mut fmt::Formatter<W>) -> fmt::Result {
        f.write_str(match self {
            Layer::Rows => "rows",
            Layer::Selection => "selection",
            Layer::Grid => "grid",
        })
    }
}

/// Why a call on rows is refused; no such fault names a place.
#[derive(Clone, Copy, PartialEq, Eq, Debug)]
pub enum RowFault {
    IncompatibleShape,
    IncompatibleLayout,
    Unsupported,
    Overflow,
    RankLimit,
    SizeLimit,
}

impl RowFault {
    /// The number that stands for the fault.
    // A match, so that each number stands beside its fault.
    pub fn number(&self) -> u8
        ensures { result ≡ row_number self.now }
    {
        match self {
            RowFault::IncompatibleShape => 1,
            RowFault::IncompatibleLayout => 2,
            RowFault::Unsupported => 5,
            RowFault::Overflow => 6,
            RowFault::RankLimit => 11,
            RowFault::SizeLimit => 12,
        }
    }
}
