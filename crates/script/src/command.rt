ghost use Rattle.std.specs.Prelude.{◌≡◌};
ghost use Rattle.script.specs.declared.command.Value.TheVariants.{Cents, Line};

use crate::expected::{Expected, What};
use crate::selected::Selection;
use cells::PayLine;
use grid::{Call, Strides};
use selection::Slice;
use std::fmt;

/// A part of a line beside the column where it begins, counted from 1.
#[derive(Drop)]
pub struct Marked<T> {
    pub column: usize,
    pub value: T,
}

impl<T> Marked<T> {
    /// What is wrong with this part.
    pub(crate) fn expected(&self, what: What) -> Expected
        ensures column { result.column ≡ self.now.column }
        ensures lacks { result.what ≡ what }
    {
        Expected {
            column: self.column,
            what,
        }
    }
}

/// What every lent cell holds.
#[derive(Clone, Copy, Debug, PartialEq, Eq)]
pub enum Kind {
    Cents,
    Lines,
}

/// One cell's value.
#[derive(Clone, Copy, Debug, PartialEq, Eq)]
pub enum Value {
    Cents(i64),
    Line(PayLine),
}

impl From<i64> for Value {
    ghost from_gives = { λ x value. value ≡ Cents x };

    fn from(cents: i64) -> Value {
        Self::Cents(cents)
    }
}

impl From<PayLine> for Value {
    ghost from_gives = { λ x value. value ≡ Line x };

    fn from(line: PayLine) -> Value {
        Self::Line(line)
    }
}

impl fmt::Display for Value {
    fn fmt<W: fmt::Write>(&self, f: &mut fmt::Formatter<W>) -> fmt::Result {
        match *self {
            Value::Cents(cents) => write!(f, "{cents}"),
            Value::Line(line) => write!(f, "{line}"),
        }
    }
}

/// What an opening asks for, its rows as they are written.
#[derive(Drop)]
pub struct Opening {
    pub cells: usize,
    pub size: usize,
    pub lens: Vec<usize>,
    pub strides: Strides<Vec<usize>>,
}

/// A call that changes the open grid.
pub type Change = Call<Selection>;

/// A value for every cell of the open grid, or for those of a selection of it.
#[derive(Drop)]
pub struct Filling {
    pub selection: Option<Selection>,
    pub value: Marked<Value>,
}

/// So many axes, all whole but one, which has a range.
#[derive(Clone, Copy, Debug, PartialEq, Eq)]
pub struct Ruling {
    pub rank: usize,
    pub axis: usize,
    pub range: Slice,
}

/// A selection to store, with the counts of axes that it should take and leave, where they are said.
#[derive(Drop)]
pub struct Storing {
    pub in_dim: Option<usize>,
    pub out_dim: Option<usize>,
    pub selection: Selection,
}

/// What one line asks for.
#[derive(Drop)]
pub enum Command {
    Lend(Marked<usize>, Kind),
    Open(Opening),
    Change(Change),
    Fill(Filling),
    Read(Vec<usize>),
    Rule(Ruling),
    Info(Storing),
    Cells,
    Report,
}
