use crate::lent::Lent;
use crate::report::Report;
use grid::Layout;
use script::{Value, write_selection};
use selection::AxisRule;
use std::fmt;

/// What a performed command answers.
#[derive(Drop)]
pub(crate) enum Answer {
    Done,
    Grid(Layout),
    Yes(Layout),
    No(Layout),
    Found(Option<Value>),
    Ruled(AxisRule),
    Counted(usize, usize),
    Cells(Lent),
    Report(Report),
}

impl fmt::Display for Answer {
    fn fmt<W: fmt::Write>(&self, f: &mut fmt::Formatter<W>) -> fmt::Result {
        match self {
            Answer::Done => f.write_str("ok"),
            Answer::Grid(layout) => write_layout(f, "ok", layout),
            Answer::Yes(layout) => write_layout(f, "yes", layout),
            Answer::No(layout) => write_layout(f, "no", layout),
            Answer::Found(Some(value)) => write!(f, "some {value}"),
            Answer::Found(None) => f.write_str("none"),
            Answer::Ruled(rule) => write_rule(f, rule),
            Answer::Counted(taken, left) => write!(f, "ok {taken} {left}"),
            Answer::Cells(Lent::Cents(cells)) => write_list::<Value, _, _>(f, cells.as_slice()),
            Answer::Cells(Lent::Lines(cells)) => write_list::<Value, _, _>(f, cells.as_slice()),
            Answer::Report(report) => write!(f, "{report}"),
        }
    }
}

/// A verdict, and the grid with its first cell, its lengths and its strides.
fn write_layout<W: fmt::Write>(
    f: &mut fmt::Formatter<W>,
    verdict: &str,
    layout: &Layout,
) -> fmt::Result {
    let start = layout.start();
    write!(f, "{verdict} start {start} lens ")?;
    write_list::<usize, _, _>(f, layout.lens().as_slice())?;
    f.write_str(" strides ")?;
    write_list::<Stride, _, _>(f, layout.strides().as_slice())
}

/// Items in brackets, with commas and no blanks, each as the value that shows it.
fn write_list<D: fmt::Display + From<T> + Drop, T: Copy, W: fmt::Write>(
    f: &mut fmt::Formatter<W>,
    items: &[T],
) -> fmt::Result {
    f.write_str("[")?;
    f.write_joined(items.iter().map(|item| D::from(*item)), ",")?;
    f.write_str("]")
}

/// A stride's word, shown as the two's complement that it is.
#[derive(Drop)]
struct Stride(usize);

impl From<usize> for Stride {
    fn from(word: usize) -> Stride {
        Stride(word)
    }
}

impl fmt::Display for Stride {
    fn fmt<W: fmt::Write>(&self, f: &mut fmt::Formatter<W>) -> fmt::Result {
        write!(f, "{}", self.0.cast_signed())
    }
}

/// The selection that a rule makes.
fn write_rule<W: fmt::Write>(f: &mut fmt::Formatter<W>, rule: &AxisRule) -> fmt::Result {
    f.write_str("ok ")?;
    write_selection(f, rule)
}
