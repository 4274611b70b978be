ghost use Rattle.std.specs.Prelude.{◌≡◌, ◌<◌, pos, nat_lt};
ghost use Rattle.std.specs.List.{list_all, zip};
ghost use Rattle.laws.specs.Strides.{signed};
ghost use Rattle.laws.specs.Tuples.{Within, is_within};
ghost use Rattle.laws.specs.Space.{cell};
ghost use Rattle.laws.specs.Filling.{cell_at};
ghost use Rattle.dimension.specs.Rows.{listed};
ghost use Rattle.grid.specs.Layouts.{seen, counted_cell};

use super::Layout;
use dimension::{IxDyn, stride_offset};

/// Whether each index is below the length beside it.
fn all_below(index: &[usize], lens: &[usize]) -> bool
    ensures { result ≡ list_all (λ p. nat_lt p.0 p.1) (zip index.now lens.now) }
{
    index.iter().zip(lens).all(|(word, length)| *word < *length)
}

/// Whether a tuple is within lengths.
fn is_within(index: &[usize], lens: &[usize]) -> bool
    ensures { result ≡ is_within index.now lens.now }
{
    index.len() == lens.len() && all_below(index, lens)
}

impl Layout {
    /// How many cells are lent to the grid.
    pub fn cell_count(&self) -> usize
        ensures { result ≡ (seen self.now).cells }
    {
        self.cells
    }

    /// The cell of the tuple of zeros.
    pub fn start(&self) -> usize
        ensures { pos result ≡ (seen self.now).start }
    {
        self.start
    }

    /// The length of each axis.
    pub fn lens(&self) -> IxDyn
        ensures { listed result ≡ (seen self.now).lens }
    {
        self.lens
    }

    /// The stride of each axis.
    pub fn strides(&self) -> IxDyn
        ensures { signed (listed result) ≡ (seen self.now).strides }
    {
        self.strides
    }

    /// Where a tuple's indices lead from the start, counted in 64 bits; within the lengths, its cell.
    pub fn stride_offset(&self, index: &[usize]) -> usize
        ensures answer { result ≡ counted_cell self.now index.now }
        ensures here { Within index.now (seen self.now).lens → cell (seen self.now) index.now ≡ pos result }
        ensures within { Within index.now (seen self.now).lens → result < (seen self.now).cells }
    {
        let mut at = self.start;
        for (word, stride) in index.iter().zip(self.strides.as_slice()) {
            at = stride_offset(at, *word, *stride);
        }
        at
    }

    /// The cell of a tuple, or none where the tuple is not within the lengths.
    pub fn stride_offset_checked(&self, index: &[usize]) -> Option<usize>
        ensures { result ≡ cell_at (seen self.now) index.now }
    {
        if !is_within(index, self.lens.as_slice()) {
            return None;
        }
        Some(self.stride_offset(index))
    }
}
