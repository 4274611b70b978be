ghost use Rattle.std.specs.Prelude.{◌≡◌, length, IfErr};
ghost use Rattle.script.specs.Cursors.{Column, Step, bytes};

use crate::command::Marked;
use crate::expected::{Expected, Noun, What};
use crate::scan::Cursor;
use crate::scan::numbers::integer;
use selection::Slice;

/// A piece of a range as a number, or none where it is empty.
fn place(piece: Marked<&[u8]>, noun: Noun) -> Result<Option<isize>, Expected>
    ensures { IfErr result (λ e. e.column ≡ piece.entry.column) }
{
    if piece.value.is_empty() {
        return Ok(None);
    }
    Ok(Some(piece.read(integer, noun)? as isize))
}

/// The two dots of a range.
fn dots(cursor: &mut Cursor<'_>) -> Result<(), Expected>
    ensures { Step cursor.old result cursor.new }
{
    cursor.skip_blanks();
    let missing = cursor.expected(What::Dots);
    if cursor.take(b'.') && cursor.take(b'.') {
        Ok(())
    } else {
        Err(missing)
    }
}

/// The step of a range, which is 1 where no semicolon follows.
fn step(cursor: &mut Cursor<'_>) -> Result<isize, Expected>
    ensures { Step cursor.old result cursor.new }
{
    cursor.skip_blanks();
    if !cursor.take(b';') {
        return Ok(1);
    }
    Ok(cursor.next_piece().read(integer, Noun::Step)? as isize)
}

/// A range of which the start is read; its end and its step may be left out.
pub(super) fn range_from(first: Marked<&[u8]>, cursor: &mut Cursor<'_>) -> Result<Slice, Expected>
    requires { Column (length (bytes cursor.old)) first.column }
    ensures { Step cursor.old result cursor.new }
{
    let start = place(first, Noun::Start)?.unwrap_or(0);
    dots(cursor)?;
    let end = place(cursor.next_piece(), Noun::Stop)?;
    let step = step(cursor)?;
    Ok(Slice { start, end, step })
}

/// A range, of which all but the dots may be left out.
pub(super) fn range(cursor: &mut Cursor<'_>) -> Result<Slice, Expected>
    ensures { Step cursor.old result cursor.new }
{
    let first = cursor.next_piece();
    range_from(first, cursor)
}
