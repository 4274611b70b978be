ghost use Rattle.script.specs.Cursors.{Step};

use super::ranges::range;
use super::selections::selection;
use super::values::{number, value};
use crate::command::{Change, Command, Filling, Ruling, Storing};
use crate::expected::{Expected, Noun, What};
use crate::scan::Cursor;
use crate::scan::numbers::natural;

/// The selection to slice by.
pub(super) fn slice(cursor: &mut Cursor<'_>) -> Result<Command, Expected>
    ensures { Step cursor.old result cursor.new }
{
    Ok(Command::Change(Change::Slice(selection(cursor)?)))
}

/// The axis to collapse, and the index that it keeps.
pub(super) fn collapse(cursor: &mut Cursor<'_>) -> Result<Command, Expected>
    ensures { Step cursor.old result cursor.new }
{
    let axis = number(cursor, Noun::Axis)?.value;
    let index = number(cursor, Noun::Index)?.value;
    Ok(Command::Change(Change::Collapse(axis, index)))
}

/// The axis to merge, and the axis into which it goes.
pub(super) fn merge(cursor: &mut Cursor<'_>) -> Result<Command, Expected>
    ensures { Step cursor.old result cursor.new }
{
    let take = number(cursor, Noun::Axis)?.value;
    let into = number(cursor, Noun::Axis)?.value;
    Ok(Command::Change(Change::Merge(take, into)))
}

/// What to fill: a selection, where a bracket begins one, and the value.
pub(super) fn fill(cursor: &mut Cursor<'_>) -> Result<Command, Expected>
    ensures { Step cursor.old result cursor.new }
{
    cursor.skip_blanks();
    let selection = if cursor.is_next(b'[') {
        Some(selection(cursor)?)
    } else {
        None
    };
    let value = value(cursor)?;
    Ok(Command::Fill(Filling { selection, value }))
}

/// The rank, the axis and the range of a rule.
pub(super) fn rule(cursor: &mut Cursor<'_>) -> Result<Command, Expected>
    ensures { Step cursor.old result cursor.new }
{
    let rank = number(cursor, Noun::Rank)?.value;
    let axis = number(cursor, Noun::Axis)?.value;
    let range = range(cursor)?;
    Ok(Command::Rule(Ruling { rank, axis, range }))
}

/// The two counts that a selection should have, and the selection.
pub(super) fn info(cursor: &mut Cursor<'_>) -> Result<Command, Expected>
    ensures { Step cursor.old result cursor.new }
{
    let in_dim = count(cursor)?;
    let out_dim = count(cursor)?;
    let selection = selection(cursor)?;
    Ok(Command::Info(Storing {
        in_dim,
        out_dim,
        selection,
    }))
}

/// A count of axes, or none where a low line stands for it.
fn count(cursor: &mut Cursor<'_>) -> Result<Option<usize>, Expected>
    ensures { Step cursor.old result cursor.new }
{
    let word = cursor.next_word();
    if word.value == b"_".as_slice() {
        return Ok(None);
    }
    word.read_or(natural, What::Count, Noun::Count).map(Some)
}
