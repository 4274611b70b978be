ghost use Rattle.std.specs.Prelude.{◌≡◌, ◌≤◌, [], length, replicate, None, nat_lt};
ghost use Rattle.dimension.specs.Errors.{answered};
ghost use Rattle.dimension.specs.Rows.{listed, listed_owed, counted, pushed, zeros};

use super::IxDyn;
use crate::dimension_trait::Dimension;
use crate::error::RowFault;
use crate::size::word_at;

impl IxDyn {
    /// A row of these words, of which there are at most eight.
    pub fn new(list: &[usize]) -> Result<IxDyn, RowFault>
        ensures { answered listed result ≡ counted list.now }
    {
        if list.len() > 8 {
            return Err(RowFault::RankLimit);
        }
        let mut cells = [0; 8];
        cells[..list.len()].copy_from_slice(list);
        Ok(IxDyn {
            cells,
            count: list.len(),
        })
    }

    /// A row of no words.
    pub fn blank() -> IxDyn
        ensures { listed result ≡ [] }
    {
        IxDyn {
            cells: [0; 8],
            count: 0,
        }
    }

    /// A row of `count` zeros, of which there are at most eight.
    pub fn zeros(count: usize) -> Result<IxDyn, RowFault>
        ensures { answered listed result ≡ zeros count }
    {
        if count > 8 {
            return Err(RowFault::RankLimit);
        }
        Ok(IxDyn {
            cells: [0; 8],
            count,
        })
    }

    /// The words of any row, as a counted row.
    pub fn copy_of<D: Dimension>(row: &D) -> IxDyn
        ensures { listed result ≡ D.Dimension.words row.now }
    {
        let mut cells = [0; 8];
        for (place, cell) in cells.iter_mut().enumerate() {
            *cell = word_at(row, place);
        }
        IxDyn {
            cells,
            count: row.ndim(),
        }
    }

    /// The words, in order.
    pub fn as_slice(&self) -> &[usize]
        ensures { result.now ≡ listed self.now }
    {
        &self.cells[..self.count]
    }

    /// Adds a word at the end; a row of eight words answers no and stays as it is.
    pub fn push(&mut self, word: usize) -> bool
        ensures after { listed self.new ≡ pushed (listed self.old) word }
        ensures answer { result ≡ nat_lt (length (listed self.old)) 8 }
    {
        let room = self.count < 8;
        if room {
            self.cells[self.count] = word;
            self.count += 1;
        }
        room
    }
}

impl Dimension for IxDyn {
    ghost words = { listed };

    ghost rank = { None };

    ghost owed = { listed_owed };

    fn fixed() -> Option<usize> {
        None
    }

    fn ndim(&self) -> usize {
        self.count
    }

    fn get(&self, place: usize) -> Option<usize> {
        self.as_slice().get(place).copied()
    }

    fn set(&mut self, place: usize, word: usize) -> bool {
        let within = place < self.count;
        if within {
            self.cells[place] = word;
        }
        within
    }
}
