ghost use Rattle.std.specs.Prelude.{◌≡◌, [], ◌∷◌, length, pos, IfOk, MatchResult};
ghost use Rattle.laws.specs.Opening.{fresh};
ghost use Rattle.laws.specs.Filling.{lent, reading, Read};
ghost use Rattle.grid.specs.declared.error.GridCall.TheVariants.{Read as Reading};
ghost use Rattle.grid.specs.Errors.{answered, calling};
ghost use Rattle.grid.specs.Layouts.{seen};

use super::Reader;
use crate::lent::check_lent;
use grid::{GridCall, GridFault, Layout};

/// The value at a tuple of a grid over these cells.
// A function of the slice, since the methods of a reader lend on what they hold.
fn read_at<T: Copy>(cells: &[T], layout: &Layout, index: &[usize]) -> Option<T>
    requires { length cells.now ≡ (seen layout.now).cells }
    ensures answer { result ≡ reading (seen layout.now) cells.now index.now }
    ensures law { Read (seen layout.now) cells.now index.now result }
{
    let at = layout.stride_offset_checked(index)?;
    Some(cells[at])
}

impl<'a, T: Copy> Reader<'a, T> {
    /// A reader of these cells; another count of cells than the layout's is refused.
    pub fn new(cells: &'a [T], layout: &Layout) -> Result<Reader<'a, T>, GridFault>
        ensures answer { answered (λ _. tt) result ≡ calling Reading (lent (seen layout.now) (length cells.now)) }
        ensures made { IfOk result (λ r. (r.cells.now ≡ cells.now) × (r.layout ≡ layout.now)) }
    {
        check_lent(layout, cells.len(), GridCall::Read)?;
        Ok(Reader {
            cells,
            layout: *layout,
        })
    }

    /// A reader of no cells.
    pub fn blank() -> Reader<'a, T>
        ensures cells { result.cells.now ≡ [] }
        ensures layout { seen result.layout ≡ fresh 0 (0 ∷ []) (pos 0 ∷ []) }
    {
        Reader {
            cells: &[],
            layout: Layout::blank(),
        }
    }

    /// Reads these cells from now on; another count of cells than the layout's is refused, and nothing changes.
    pub fn lend(&mut self, cells: &'a [T], layout: &Layout) -> Result<(), GridFault>
        ensures answer { answered (λ u. u) result ≡ calling Reading (lent (seen layout.now) (length cells.now)) }
        ensures after { MatchResult result (λ _. (self.new.cells.now ≡ cells.now) × (self.new.layout ≡ layout.now)) (λ _. self.new ≡ self.old) }
    {
        *self = Reader::new(cells, layout)?;
        Ok(())
    }

    /// The value at a tuple, or none where the tuple is not within the lengths.
    pub fn get(&self, index: &[usize]) -> Option<T>
        ensures answer { result ≡ reading (seen self.now.layout) self.now.cells.now index.now }
        ensures law { Read (seen self.now.layout) self.now.cells.now index.now result }
    {
        read_at(self.cells, &self.layout, index)
    }
}
