ghost use Rattle.std.specs.Prelude.{◌≡◌, ◌+◌, ◌-◌, ◌<◌, ◌≤◌, true, false, not, T, length, take, drop, slice_index, if◌then◌else◌};
ghost use Rattle.script.specs.Cursors.{Column, Front, Onward, Part, Step, Until, blank, bytes, edge, ending};

use super::Cursor;
use crate::command::Marked;
use crate::expected::{Expected, What};
use std::alloc::Global;

/// Whether a byte only keeps words apart.
fn is_blank(byte: u8) -> bool
    ensures { result ≡ blank byte }
{
    byte == b' ' || byte == b'\t'
}

/// Whether a byte is no blank.
pub(crate) fn not_blank(byte: u8) -> bool
    ensures { result ≡ not (blank byte) }
{
    !is_blank(byte)
}

/// Whether a byte ends a word: a blank or a mark.
fn is_ending(byte: u8) -> bool
    ensures { result ≡ ending byte }
{
    is_blank(byte) || byte == b'[' || byte == b']' || byte == b',' || byte == b'/'
}

/// Whether a byte ends a piece of a range: what ends a word, a dot or a semicolon.
fn is_edge(byte: u8) -> bool
    ensures { result ≡ edge byte }
{
    is_ending(byte) || byte == b'.' || byte == b';'
}

/// How many bytes stand before the first at which to stop, which is all of them where there is none.
pub(crate) fn front<F: Fn(u8) -> bool>(text: &[u8], stop: F) -> usize
    requires { F.IsAlwaysCallable stop }
    ensures { Until (F.post stop) text.now result }
{
    text.iter()
        .position(|byte| stop(*byte))
        .unwrap_or(text.len())
}

impl<'a> Cursor<'a> {
    /// The front of a line.
    pub(crate) fn new(heap: Global, line: &'a [u8]) -> Cursor<'a>
        ensures { bytes result ≡ line.now }
    {
        Cursor { heap, line, at: 0 }
    }

    /// The column of the next byte, counted from 1.
    pub(crate) fn column(&self) -> usize
        ensures place { Column (length (bytes self.now)) result }
        ensures next { result ≡ self.now.at + 1 }
    {
        self.at + 1
    }

    /// What is wrong at this place.
    pub(crate) fn expected(&self, what: What) -> Expected
        ensures place { Column (length (bytes self.now)) result.column }
        ensures lacks { result.what ≡ what }
    {
        Expected {
            column: self.column(),
            what,
        }
    }

    /// Whether no byte is left.
    pub(crate) fn at_end(&self) -> bool {
        self.at == self.line.len()
    }

    /// Whether the next byte is this one.
    pub(crate) fn is_next(&self, byte: u8) -> bool
        ensures { T result → self.now.at < length (bytes self.now) }
    {
        self.line.get(self.at) == Some(&byte)
    }

    /// Steps over the next byte if it is this one.
    pub(crate) fn take(&mut self, byte: u8) -> bool
        ensures line { bytes self.new ≡ bytes self.old }
        ensures on { self.new.at ≡ (if result then self.old.at + 1 else self.old.at) }
    {
        let found = self.is_next(byte);
        if found {
            self.at += 1;
        }
        found
    }

    /// Steps over the next byte, which has to be this one.
    pub(crate) fn demand(&mut self, byte: u8, missing: What) -> Result<(), Expected>
        ensures { Step self.old result self.new }
    {
        if self.take(byte) {
            Ok(())
        } else {
            Err(self.expected(missing))
        }
    }

    /// Steps on to the next byte at which to stop, or to the end, and gives what lies between.
    fn until<F: Fn(u8) -> bool>(&mut self, stop: F) -> Marked<&'a [u8]>
        requires { F.IsAlwaysCallable stop }
        ensures part { Part self.old result self.new }
        ensures text { result.value.now ≡ take (self.new.at - self.old.at) (drop self.old.at (bytes self.old)) }
        ensures front { Until (F.post stop) (drop self.old.at (bytes self.old)) (self.new.at - self.old.at) }
    {
        let column = self.column();
        let rest = &self.line[self.at..];
        let count = front(rest, stop);
        self.at += count;
        Marked {
            column,
            value: &rest[..count],
        }
    }

    /// Steps over the blanks that come next.
    pub(crate) fn skip_blanks(&mut self)
        ensures onward { Onward self.old self.new }
        ensures front { Front blank true (drop self.old.at (bytes self.old)) (self.new.at - self.old.at) }
    {
        self.until(not_blank);
    }

    /// The word that begins here, which is empty before a blank or a mark.
    pub(crate) fn word(&mut self) -> Marked<&'a [u8]>
        ensures part { Part self.old result self.new }
        ensures text { result.value.now ≡ take (self.new.at - self.old.at) (drop self.old.at (bytes self.old)) }
        ensures front { Front ending false (drop self.old.at (bytes self.old)) (self.new.at - self.old.at) }
    {
        self.until(is_ending)
    }

    /// The word after the blanks that come next.
    pub(crate) fn next_word(&mut self) -> Marked<&'a [u8]>
        ensures { Part self.old result self.new }
    {
        self.skip_blanks();
        self.word()
    }

    /// The piece of a range that begins here, which is empty where none begins.
    fn piece(&mut self) -> Marked<&'a [u8]>
        ensures part { Part self.old result self.new }
        ensures text { result.value.now ≡ take (self.new.at - self.old.at) (drop self.old.at (bytes self.old)) }
        ensures front { Front edge false (drop self.old.at (bytes self.old)) (self.new.at - self.old.at) }
    {
        self.until(is_edge)
    }

    /// The piece of a range after the blanks that come next.
    pub(crate) fn next_piece(&mut self) -> Marked<&'a [u8]>
        ensures { Part self.old result self.new }
    {
        self.skip_blanks();
        self.piece()
    }
}
