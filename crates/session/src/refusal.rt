use dimension::Layer;
use grid::GridFault;
use script::{Expected, What};
use selection::SliceFault;
use std::alloc::AllocError;
use std::fmt;

/// A fault with what gave it: a call on the grid, or the making of a selection.
#[derive(Clone, Copy)]
pub(crate) enum Fault {
    Grid(GridFault),
    Rule(SliceFault),
    Info(SliceFault),
}

impl fmt::Display for Fault {
    fn fmt<W: fmt::Write>(&self, f: &mut fmt::Formatter<W>) -> fmt::Result {
        let (number, layer, place) = match self {
            Fault::Grid(fault) => (fault.number(), fault.layer(), fault.place()),
            Fault::Rule(fault) | Fault::Info(fault) => {
                (fault.number(), Layer::Selection, fault.place())
            }
        };
        write!(f, "fault {number} {layer} ")?;
        match place {
            Some(place) => write!(f, "{place} ")?,
            None => f.write_str("- ")?,
        }
        match self {
            Fault::Grid(fault) => write!(f, "{} -", fault.call),
            Fault::Rule(_) => f.write_str("rule -"),
            Fault::Info(_) => f.write_str("info -"),
        }
    }
}

/// Why a command is not performed: a call is refused, a part of the line is wrong, or the command lacks something.
#[derive(Clone, Copy)]
pub(crate) enum Refusal {
    Fault(Fault),
    Wrong(Expected),
    Lacking(What),
}

impl From<Fault> for Refusal {
    fn from(fault: Fault) -> Refusal {
        Refusal::Fault(fault)
    }
}

impl From<GridFault> for Refusal {
    fn from(fault: GridFault) -> Refusal {
        Refusal::Fault(Fault::Grid(fault))
    }
}

impl From<Expected> for Refusal {
    fn from(expected: Expected) -> Refusal {
        Refusal::Wrong(expected)
    }
}

impl From<What> for Refusal {
    fn from(what: What) -> Refusal {
        Refusal::Lacking(what)
    }
}

impl From<AllocError> for Refusal {
    fn from(_error: AllocError) -> Refusal {
        Refusal::Lacking(What::Memory)
    }
}
