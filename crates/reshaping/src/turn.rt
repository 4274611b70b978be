ghost use Rattle.std.specs.Prelude.{◌≡◌, ◌+◌, ◌<◌, ◌≤◌, length, MatchResult};
ghost use Rattle.laws.specs.Strides.{signed};
ghost use Rattle.laws.specs.Reshaping.{Ready};
ghost use Rattle.laws.specs.ReshapingSteps.{Refused};
ghost use Rattle.dimension.specs.Errors.{row_fault};
ghost use Rattle.dimension.specs.Rows.{listed};
ghost use Rattle.reshaping.specs.Turns.{Passed, ready_prop};

use crate::groups::write_group;
use dimension::{IxDyn, RowFault};

/// The old and the new axes that a turn of the walk begins with; there are some of both, and their lengths have one product.
#[derive(Drop)]
pub(crate) struct Turn<'a> {
    pub(crate) from: &'a [usize],
    pub(crate) strides: &'a [usize],
    pub(crate) to: &'a [usize],
    ghost old: { 0 < length from.now },
    ghost new: { 0 < length to.now },
    ghost even: { length strides.now ≡ length from.now },
    ghost ready: { Ready from.now (signed strides.now) to.now } by { ready_prop _ _ _ },
}

impl<'a> Turn<'a> {
    /// Writes the strides of the new axes that the turn passes, and says how many old and new axes it passes.
    pub(crate) fn pass(&self, out: &mut IxDyn) -> Result<(usize, usize), RowFault>
        requires room { length (listed out.old) + length self.now.to.now ≤ 8 }
        ensures { MatchResult result (λ p. Passed self.now.from.now (signed self.now.strides.now) self.now.to.now (signed (listed out.old)) (signed (listed out.new)) p.0 p.1) (λ f. Refused self.now.from.now (signed self.now.strides.now) self.now.to.now 0 0 (row_fault f)) }
    {
        let fd = self.from[0];
        let td = self.to[0];
        let stride = self.strides[0];
        if fd == td {
            let _ = out.push(stride);
            return Ok((1, 1));
        }
        if fd == 1 {
            return Ok((1, 0));
        }
        if td == 1 {
            let _ = out.push(1);
            return Ok((0, 1));
        }
        let (olds, news) = self.group_ends()?;
        let whole = fd as isize * stride.cast_signed();
        write_group(&self.to[..news], out, whole);
        Ok((olds, news))
    }
}
