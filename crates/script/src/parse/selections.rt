ghost use Rattle.std.specs.Prelude.{◌≡◌, IfErr};
ghost use Rattle.script.specs.Cursors.{Step};

use super::brackets::brackets;
use super::ranges::range_from;
use crate::command::Marked;
use crate::expected::{Expected, Noun, What};
use crate::scan::Cursor;
use crate::scan::numbers::integer;
use crate::selected::Selection;
use selection::SliceInfoElem;

/// A selection: elements in brackets, with a comma between two of them.
pub(super) fn selection(cursor: &mut Cursor<'_>) -> Result<Selection, Expected>
    ensures { Step cursor.old result cursor.new }
{
    let elems = brackets(cursor, What::Selection, element)?;
    Ok(Selection { elems })
}

/// One element of a selection: a range has dots, and any other is one word.
fn element(cursor: &mut Cursor<'_>) -> Result<SliceInfoElem, Expected>
    ensures { Step cursor.old result cursor.new }
{
    let first = cursor.next_piece();
    cursor.skip_blanks();
    if !cursor.is_next(b'.') {
        return lone(first);
    }
    Ok(SliceInfoElem::Slice(range_from(first, cursor)?))
}

/// An element of one word: a new axis or an index.
fn lone(word: Marked<&[u8]>) -> Result<SliceInfoElem, Expected>
    ensures { IfErr result (λ e. e.column ≡ word.entry.column) }
{
    if word.value == b"NewAxis".as_slice() {
        return Ok(SliceInfoElem::NewAxis);
    }
    let index = word.read_or(integer, What::Element, Noun::Place)?;
    Ok(SliceInfoElem::Index(index as isize))
}
