/// Which axis varies fastest: the last in row-major order, the first in column-major order.
#[derive(Clone, Copy, PartialEq, Eq, Debug)]
pub enum Order {
    RowMajor,
    ColumnMajor,
}
