ghost use Rattle.std.specs.Prelude.{◌≡◌, ◌+◌, ◌≤◌, length, pos};
ghost use Rattle.laws.specs.Lengths.{nonzeros};
ghost use Rattle.laws.specs.Strides.{signed};
ghost use Rattle.laws.specs.Space.{Bounds, Distinct, up, down};
ghost use Rattle.dimension.specs.Rows.{listed};

use dimension::IxDyn;

mod collapsing;
mod merging;
mod opening;
mod overlap;
mod parts;
mod shaping;
mod slicing;

/// Where the cells of a grid lie: no layout exists that leaves the lent cells, has two tuples share one, or breaks a limit.
#[derive(Clone, Copy)]
pub struct Layout {
    cells: usize,
    start: usize,
    lens: IxDyn,
    strides: IxDyn,
    ghost bounds: { Bounds cells (pos start) (listed lens) (signed (listed strides)) },
    ghost distinct: { Distinct (listed lens) (signed (listed strides)) },
    ghost narrow: { cells ≤ 1048576 },
    ghost small: { nonzeros (listed lens) ≤ 1048576 },
    ghost low: { down (listed lens) (signed (listed strides)) ≤ start },
    ghost high: { start + up (listed lens) (signed (listed strides)) ≤ cells },
    ghost paired: { length (listed lens) ≡ length (signed (listed strides)) },
}
