use crate::cell::Cell;
use crate::lent::Lent;
use crate::posting::{Posting, grid_size};
use grid::Layout;
use std::alloc::{AllocError, Global};
use std::fmt;

/// What all the lent cells come to.
#[derive(Clone, Copy)]
struct Totals {
    kind: &'static str,
    count: usize,
    used: usize,
    cents: i128,
}

impl Totals {
    /// Of cells of any type.
    fn of<T: Cell>(cells: &[T]) -> Totals {
        Totals {
            kind: T::KIND,
            count: cells.len(),
            used: cells.iter().filter(|cell| **cell != T::default()).count(),
            cents: cells.iter().fold(
                0,
                |sum: i128, cell| sum.saturating_add(i128::from(cell.cents())),
            ),
        }
    }
}

/// What a person is told of a session, as it stood when the report was asked for.
#[derive(Drop)]
pub(crate) struct Report {
    totals: Totals,
    grid: Option<Layout>,
    posted: String,
}

impl Report {
    /// A report on these cells, this grid and these fillings.
    pub(crate) fn new(
        heap: Global,
        lent: &Lent,
        grid: Option<Layout>,
        posted: &[Posting],
    ) -> Result<Report, AllocError> {
        let totals = match lent {
            Lent::Cents(cells) => Totals::of(cells.as_slice()),
            Lent::Lines(cells) => Totals::of(cells.as_slice()),
        };
        let posted = posted_text(heap, posted)?;
        Ok(Report {
            totals,
            grid,
            posted,
        })
    }
}

impl fmt::Display for Report {
    fn fmt<W: fmt::Write>(&self, f: &mut fmt::Formatter<W>) -> fmt::Result {
        let count = self.totals.count;
        let kind = self.totals.kind;
        writeln!(f, "lent      {count} cells of {kind}")?;
        match &self.grid {
            Some(layout) => write_grid(f, layout)?,
            None => f.write_str("grid      none is open\n")?,
        }
        f.write_str(self.posted.as_str())?;
        write_totals(f, self.totals)
    }
}

/// The open grid, with a line for each axis.
fn write_grid<W: fmt::Write>(f: &mut fmt::Formatter<W>, layout: &Layout) -> fmt::Result {
    let lens = layout.lens();
    let strides = layout.strides();
    let size = grid_size(layout);
    let count = layout.cell_count();
    let start = layout.start();
    writeln!(
        f,
        "grid      {size} cells, opened over {count}, start {start}"
    )?;
    writeln!(f, "          axis      length      stride")?;
    let axes = lens.as_slice().iter().zip(strides.as_slice());
    for (axis, (length, word)) in axes.enumerate() {
        let stride = word.cast_signed();
        writeln!(f, "          {axis:>4}{length:>12}{stride:>12}")?;
    }
    Ok(())
}

/// What was done to the grid, with a line for each posting, in their order.
fn posted_text(heap: Global, posted: &[Posting]) -> Result<String, AllocError> {
    let mut text = String::new(heap);
    if posted.is_empty() {
        text.push_str("posted    nothing\n")?;
        return Ok(text);
    }
    text.push_str("posted       cells       times  value\n")?;
    for posting in posted {
        writeln!(text, "{posting}")?;
    }
    Ok(text)
}

/// The totals of the lent cells, in cents and with two decimal places.
fn write_totals<W: fmt::Write>(f: &mut fmt::Formatter<W>, totals: Totals) -> fmt::Result {
    let used = totals.used;
    let cents = totals.cents;
    let sign = if cents < 0 { "-" } else { "" };
    let whole = cents.unsigned_abs() / 100;
    let part = cents.unsigned_abs() % 100;
    writeln!(f, "not 0     {used} cells")?;
    write!(f, "total     {cents} cents, or {sign}{whole}.{part:02}")
}
