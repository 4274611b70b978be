ghost use Rattle.std.specs.Prelude.{◌≤◌};

mod row;

/// A counted row: its words are the first `count` of the cells.
// A fixed array, so that a layout copies without fail.
#[derive(Clone, Copy)]
pub struct IxDyn {
    cells: [usize; 8],
    count: usize,
    ghost few: { count ≤ 8 },
}
