ghost use Rattle.std.specs.Prelude.{◌≡◌};
ghost use Rattle.dimension.specs.Errors.{layer_of};
ghost use Rattle.grid.specs.declared.error.Cause.TheVariants.{Rows, Selection};
ghost use Rattle.grid.specs.Errors.{noted, told};

use dimension::{Layer, RowFault};
use selection::SliceFault;
use std::fmt;

/// The calls on a grid and on its cells.
#[derive(Clone, Copy, PartialEq, Eq, Debug)]
pub enum GridCall {
    Open,
    Fill,
    Read,
    Slice,
    Collapse,
    Merge,
    Reshape,
}

impl fmt::Display for GridCall {
    fn fmt<W: fmt::Write>(&self, f: &mut fmt::Formatter<W>) -> fmt::Result {
        f.write_str(match self {
            GridCall::Open => "open",
            GridCall::Fill => "fill",
            GridCall::Read => "read",
            GridCall::Slice => "slice",
            GridCall::Collapse => "collapse",
            GridCall::Merge => "merge",
            GridCall::Reshape => "reshape",
        })
    }
}

/// Why a grid call is refused: a fault of the rows or of a selection, whole, or one of the grid's own.
#[derive(Clone, Copy, PartialEq, Eq, Debug)]
pub enum Cause {
    Rows(RowFault),
    Selection(SliceFault),
    OutOfBounds,
    Outside(usize),
}

/// The fault of a grid call: why it is refused, and which call it is.
#[derive(Clone, Copy, PartialEq, Eq, Debug)]
pub struct GridFault {
    pub cause: Cause,
    pub call: GridCall,
}

impl GridFault {
    /// The number that stands for the fault.
    // A match, so that each number stands beside its fault.
    pub fn number(&self) -> u8
        ensures { result ≡ (told self.now).fault.number }
    {
        match self.cause {
            Cause::Rows(fault) => fault.number(),
            Cause::Selection(fault) => fault.number(),
            Cause::OutOfBounds => 4,
            Cause::Outside(_) => 14,
        }
    }

    /// The layer where the fault arose.
    pub fn layer(&self) -> Layer
        ensures { layer_of result ≡ (told self.now).fault.layer }
    {
        match self.cause {
            Cause::Rows(_) => Layer::Rows,
            Cause::Selection(_) => Layer::Selection,
            Cause::OutOfBounds | Cause::Outside(_) => Layer::Grid,
        }
    }

    /// The place that the fault names, if it names one.
    pub fn place(&self) -> Option<usize>
        ensures { result ≡ (told self.now).fault.place }
    {
        match self.cause {
            Cause::Selection(fault) => fault.place(),
            Cause::Outside(axis) => Some(axis),
            Cause::Rows(_) | Cause::OutOfBounds => None,
        }
    }
}

/// A fault of a lower layer beside the call during which it came.
#[derive(Clone, Copy)]
pub struct During<F> {
    pub fault: F,
    pub call: GridCall,
}

/// Notes the call beside a lower layer's fault.
pub fn at_call<T, F>(res: Result<T, F>, call: GridCall) -> Result<T, During<F>>
    ensures { result ≡ noted res call }
{
    res.map_err(|fault| During { fault, call })
}

impl From<RowFault> for Cause {
    ghost from_gives = { λ f r. r ≡ Rows f };

    fn from(lower: RowFault) -> Cause {
        Cause::Rows(lower)
    }
}

impl From<SliceFault> for Cause {
    ghost from_gives = { λ f r. r ≡ Selection f };

    fn from(lower: SliceFault) -> Cause {
        Cause::Selection(lower)
    }
}

impl<F: Into<Cause>> From<During<F>> for GridFault {
    ghost from_gives = { λ d r. F.converts d.fault r.cause × (r.call ≡ d.call) };

    fn from(d: During<F>) -> GridFault {
        GridFault {
            cause: d.fault.into(),
            call: d.call,
        }
    }
}
