ghost use Rattle.std.specs.Prelude.{◌≤◌, length};

use std::alloc::Global;

pub(crate) mod numbers;
mod steps;

pub(crate) use steps::{front, not_blank};

/// A place in the bytes of a line, never past their end, and where what is read is kept.
#[derive(Drop)]
pub(crate) struct Cursor<'a> {
    pub(crate) heap: Global,
    line: &'a [u8],
    at: usize,
    ghost within: { at ≤ length line.now },
}
