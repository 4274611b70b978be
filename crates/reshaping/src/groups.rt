ghost use Rattle.std.specs.Prelude.{◌≡◌, ◌+◌, ◌^◌, ◌≤◌, ◌++◌, length};
ghost use Rattle.std.specs.Int.{w64};
ghost use Rattle.std.specs.Option.{option_map};
ghost use Rattle.std.proofs.Common.{to_z};
ghost use Rattle.laws.specs.Lengths.{product};
ghost use Rattle.laws.specs.Strides.{signed};
ghost use Rattle.laws.specs.Reshaping.{linked, group, Positive};
ghost use Rattle.laws.specs.ReshapingSteps.{ends, quotients};
ghost use Rattle.dimension.specs.Errors.{answered};
ghost use Rattle.dimension.specs.Rows.{listed};

use crate::turn::Turn;
use dimension::{IxDyn, RowFault, in_step};

/// The stride to which the next axis of an old group is held, or none where the two axes do not lie in step.
fn linked(before: usize, length: usize, stride: usize) -> Option<usize>
    ensures { option_map (λ w. to_z w64 w) result ≡ linked length (to_z w64 before) (to_z w64 stride) }
{
    if length == 1 {
        return Some(before);
    }
    in_step(before, length, stride).then_some(stride)
}

impl<'a> Turn<'a> {
    /// How many old and new axes the group has that begins here, refused where its old axes do not lie in step.
    pub(crate) fn group_ends(&self) -> Result<(usize, usize), RowFault>
        ensures { answered (λ p. p) result ≡ ends (group self.now.from.now (signed self.now.strides.now) self.now.to.now) }
    {
        let mut olds = 1;
        let mut news = 1;
        let mut stride = self.strides[0];
        let mut old_product = self.from[0];
        let mut new_product = self.to[0];
        // Each turn grows one of two sides, so there is no one list to go over.
        while old_product != new_product {
            if old_product < new_product {
                let length = self.from[olds];
                let next = self.strides[olds];
                stride = linked(stride, length, next).ok_or(RowFault::IncompatibleLayout)?;
                old_product *= length;
                olds += 1;
            } else {
                new_product *= self.to[news];
                news += 1;
            }
        }
        Ok((olds, news))
    }
}

/// Writes the group's whole stride divided by one new length after another.
pub(crate) fn write_group(lengths: &[usize], out: &mut IxDyn, whole: isize)
    requires some { Positive lengths.now }
    requires small { product lengths.now ≤ 2 ^ 20 }
    requires room { length (listed out.old) + length lengths.now ≤ 8 }
    ensures { signed (listed out.new) ≡ signed (listed out.old) ++ quotients whole lengths.now }
{
    let mut step = whole;
    for length in lengths {
        step /= *length as isize;
        let _ = out.push(step.cast_unsigned());
    }
}
