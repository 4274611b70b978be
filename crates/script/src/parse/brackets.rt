ghost use Rattle.std.specs.Prelude.{◌<◌, OnOk};
ghost use Rattle.script.specs.Cursors.{Step};

use super::values::{number, stride};
use crate::expected::{Expected, Noun, What};
use crate::scan::Cursor;

/// Entries in brackets, with a comma between two of them.
pub(super) fn brackets<T: Drop, F: Fn(&mut Cursor<'_>) -> Result<T, Expected>>(
    cursor: &mut Cursor<'_>,
    missing: What,
    entry: F,
) -> Result<Vec<T>, Expected>
    requires callable { F.IsAlwaysCallable entry }
    requires steps { (before : _) (read : _) (after : _) → F.post entry before read after → Step before.now read after.now }
    ensures { Step cursor.old result cursor.new }
{
    let mut entries = Vec::new(cursor.heap);
    cursor.skip_blanks();
    cursor.demand(b'[', missing)?;
    cursor.skip_blanks();
    if cursor.take(b']') {
        return Ok(entries);
    }
    loop {
        let value = entry(cursor)?;
        if entries.push(value).is_err() {
            return Err(cursor.expected(What::Memory));
        }
        if !goes_on(cursor)? {
            return Ok(entries);
        }
    }
}

/// Whether a comma follows, and not the bracket that ends the entries.
fn goes_on(cursor: &mut Cursor<'_>) -> Result<bool, Expected>
    ensures step { Step cursor.old result cursor.new }
    ensures further { OnOk result (cursor.old.at < cursor.new.at) }
{
    cursor.skip_blanks();
    if cursor.take(b',') {
        return Ok(true);
    }
    if cursor.take(b']') {
        return Ok(false);
    }
    Err(cursor.expected(What::RowEnd))
}

/// A row of numbers.
pub(super) fn row(cursor: &mut Cursor<'_>, noun: Noun) -> Result<Vec<usize>, Expected>
    ensures { Step cursor.old result cursor.new }
{
    brackets(cursor, What::Row, |cursor| Ok(number(cursor, noun)?.value))
}

/// A row of strides.
pub(super) fn strides(cursor: &mut Cursor<'_>) -> Result<Vec<usize>, Expected>
    ensures { Step cursor.old result cursor.new }
{
    brackets(cursor, What::Row, stride)
}
