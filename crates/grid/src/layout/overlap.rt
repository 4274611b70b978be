ghost use Rattle.std.specs.Prelude.{◌≡◌, ◌-◌, ◌*◌, ◌^◌, ◌≤◌, cond, length, if◌then◌else◌, nat_le};
ghost use Rattle.laws.specs.Lengths.{some_zero};
ghost use Rattle.laws.specs.Strides.{signed};
ghost use Rattle.laws.specs.Opening.{span, span_others, crowded, overlaps};

use dimension::magnitude;

/// Lengths and strides of one rank, whose reach is within 63 bits.
#[derive(Clone, Copy)]
pub(super) struct Axes<'a> {
    pub(super) lens: &'a [usize],
    pub(super) strides: &'a [usize],
    ghost rank: { length lens.now ≡ length strides.now },
    ghost fits: { span lens.now (signed strides.now) ≤ 2 ^ 63 - 1 },
}

/// What one axis adds to the reach of the axes of magnitude at most `most`; an axis that is left out adds nothing.
fn axis_share(left_out: bool, length: usize, step: usize, most: usize) -> usize
    requires { (length - 1) * step ≤ 2 ^ 63 - 1 }
    ensures { result ≡ cond left_out 0 (if nat_le step most then (length - 1) * step else 0) }
{
    if left_out || step > most {
        return 0;
    }
    length.saturating_sub(1) * step
}

impl<'a> Axes<'a> {
    /// The reach of the axes other than this one whose magnitude is at most `most`.
    fn span_others(&self, axis: usize, most: usize) -> usize
        ensures { result ≡ span_others axis most self.now.lens.now (signed self.now.strides.now) }
    {
        let mut far = 0;
        for (place, (length, stride)) in self.lens.iter().zip(self.strides).enumerate() {
            far += axis_share(place == axis, *length, magnitude(*stride), most);
        }
        far
    }

    /// Whether an axis is longer than 1 and the others with strides of its magnitude or less reach at least as far as its stride.
    fn is_crowded(&self, axis: usize) -> bool
        ensures { result ≡ crowded self.now.lens.now (signed self.now.strides.now) axis }
    {
        let length = self.lens.get(axis).copied().unwrap_or(0);
        let step = magnitude(self.strides.get(axis).copied().unwrap_or(0));
        length > 1 && step <= self.span_others(axis, step)
    }

    /// Whether some length is 0, so that there are no tuples.
    pub(super) fn is_empty(&self) -> bool
        ensures { result ≡ some_zero self.now.lens.now }
    {
        self.lens.contains(&0)
    }

    /// Whether two tuples may have one cell; a grid without cells has no tuples.
    pub(super) fn overlap(&self) -> bool
        ensures { result ≡ overlaps self.now.lens.now (signed self.now.strides.now) }
    {
        if self.is_empty() {
            return false;
        }
        // `any` over a range of numbers is left open by the check.
        for axis in 0..self.lens.len() {
            if self.is_crowded(axis) {
                return true;
            }
        }
        false
    }
}
