ghost use Rattle.std.specs.Prelude.{◌≡◌, length};
ghost use Rattle.grid.specs.Layouts.{seen};

use grid::Layout;

mod reads;

/// Lent cells, with a layout of the reader's own that says where they lie.
#[derive(Drop)]
pub struct Reader<'a, T> {
    cells: &'a [T],
    layout: Layout,
    ghost whole: { length cells.now ≡ (seen layout).cells },
}
