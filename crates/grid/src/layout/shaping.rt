ghost use Rattle.std.specs.Prelude.{◌≡◌, OnErr};
ghost use Rattle.laws.specs.Reshaping.{reshaping};
ghost use Rattle.reshaping.specs.Reshapes.{order_of};
ghost use Rattle.grid.specs.Errors.{answered, calling};
ghost use Rattle.grid.specs.Layouts.{seen};

use super::Layout;
use crate::error::{GridCall, GridFault, at_call};
use dimension::{Dimension, IxDyn, Order};
use reshaping::reshape_dim;

impl Layout {
    /// Gives the grid other lengths over the same cells, its tuples counted in an order; a refusal changes nothing.
    pub fn reshape<D: Dimension>(&mut self, shape: &D, order: Order) -> Result<(), GridFault>
        ensures answer { answered (λ _. seen self.new) result ≡ calling GridCall.Reshape (reshaping (order_of order) (D.Dimension.words shape.now) (seen self.old)) }
        ensures same { OnErr result (self.new ≡ self.old) }
    {
        let old = self.strides;
        let strides = at_call(
            reshape_dim(&self.lens, &old, shape, order),
            GridCall::Reshape,
        )?;
        self.lens = IxDyn::copy_of(shape);
        self.strides = strides;
        Ok(())
    }
}
