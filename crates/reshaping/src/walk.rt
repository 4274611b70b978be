ghost use Rattle.std.specs.Prelude.{◌≡◌, ◌+◌, ◌≤◌, ◌++◌, length, replicate, pos};
ghost use Rattle.laws.specs.Strides.{signed};
ghost use Rattle.laws.specs.Reshaping.{regrouped, Ready};
ghost use Rattle.dimension.specs.Errors.{answered};
ghost use Rattle.dimension.specs.Rows.{listed};

use crate::turn::Turn;
use dimension::{Dimension, IxDyn, RowFault};

/// Writes stride 1 for each length.
// Not a group of steps, which would divide 1 by 1 to say 1.
fn write_ones(lengths: &[usize], out: &mut IxDyn)
    requires { length (listed out.old) + length lengths.now ≤ 8 }
    ensures { signed (listed out.new) ≡ signed (listed out.old) ++ replicate (length lengths.now) (pos 1) }
{
    for _ in lengths {
        let _ = out.push(1);
    }
}

/// The walk over both rows of lengths, from the first axis on; the new axes that are left at its end have length 1.
pub(crate) fn reshape_dim_c<F: Dimension, S: Dimension, E: Dimension>(
    from: &F,
    strides: &S,
    to: &E,
) -> Result<IxDyn, RowFault>
    requires { Ready (F.Dimension.words from.now) (signed (S.Dimension.words strides.now)) (E.Dimension.words to.now) }
    ensures { answered (λ out. signed (listed out)) result ≡ regrouped (F.Dimension.words from.now) (signed (S.Dimension.words strides.now)) (E.Dimension.words to.now) }
{
    let from = IxDyn::copy_of(from);
    let strides = IxDyn::copy_of(strides);
    let to = IxDyn::copy_of(to);
    let mut from = from.as_slice();
    let mut strides = strides.as_slice();
    let mut to = to.as_slice();
    let mut out = IxDyn::blank();
    while !from.is_empty() && !to.is_empty() {
        let turn = Turn { from, strides, to };
        let (olds, news) = turn.pass(&mut out)?;
        from = &from[olds..];
        strides = &strides[olds..];
        to = &to[news..];
    }
    write_ones(to, &mut out);
    Ok(out)
}
