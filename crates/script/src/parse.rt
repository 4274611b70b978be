ghost use Rattle.std.specs.Prelude.{◌≤◌, length, IfOk};
ghost use Rattle.script.specs.Cursors.{Placed, Step};

use crate::command::{Command, Kind, Marked, Opening};
use crate::expected::{Expected, Noun, What};
use crate::scan::{Cursor, front, not_blank};
use grid::Strides;
use std::alloc::Global;

mod brackets;
mod calls;
mod ranges;
mod selections;
mod values;

use brackets::{row, strides};
use values::number;

/// What a line asks for, or none where it has nothing but blanks and a comment.
pub fn parse_line(heap: Global, line: &[u8]) -> Result<Option<Marked<Command>>, Expected>
    ensures { Placed (length line.now) result }
{
    parse_text(heap, before_comment(line)?)
}

/// What a text asks for, or none where it is blank.
fn parse_text(heap: Global, text: &[u8]) -> Result<Option<Marked<Command>>, Expected>
    ensures { Placed (length text.now) result }
{
    let mut cursor = Cursor::new(heap, text);
    cursor.skip_blanks();
    if cursor.at_end() {
        return Ok(None);
    }
    let column = cursor.column();
    let value = command(&mut cursor)?;
    cursor.skip_blanks();
    if !cursor.at_end() {
        return Err(cursor.expected(What::End));
    }
    Ok(Some(Marked { column, value }))
}

/// The bytes before a comment and the blanks in front of it, which are all ASCII.
fn before_comment(line: &[u8]) -> Result<&[u8], Expected>
    ensures place { Placed (length line.now) result }
    ensures front { IfOk result (λ text. length text.now ≤ length line.now) }
{
    let text = &line[..front(line, |byte| byte == b'#')];
    if let Some(place) = text.iter().position(|byte| !byte.is_ascii()) {
        return Err(Expected {
            column: place + 1,
            what: What::Ascii,
        });
    }
    let last = text.iter().rposition(|byte| not_blank(*byte));
    Ok(&text[..last.map_or(0, |place| place + 1)])
}

/// The command that the first word names, with what belongs to it.
fn command(cursor: &mut Cursor<'_>) -> Result<Command, Expected>
    ensures { Step cursor.old result cursor.new }
{
    let word = cursor.word();
    match word.value {
        b"lend" => lend(cursor),
        b"open" => open(cursor),
        b"slice" => calls::slice(cursor),
        b"collapse" => calls::collapse(cursor),
        b"merge" => calls::merge(cursor),
        b"fill" => calls::fill(cursor),
        b"read" => row(cursor, Noun::Index).map(Command::Read),
        b"rule" => calls::rule(cursor),
        b"info" => calls::info(cursor),
        b"cells" => Ok(Command::Cells),
        b"report" => Ok(Command::Report),
        _ => Err(word.expected(What::Command)),
    }
}

/// How many cells to lend, and of which kind.
fn lend(cursor: &mut Cursor<'_>) -> Result<Command, Expected>
    ensures { Step cursor.old result cursor.new }
{
    let count = number(cursor, Noun::Cells)?;
    let word = cursor.next_word();
    match word.value {
        b"cents" => Ok(Command::Lend(count, Kind::Cents)),
        b"lines" => Ok(Command::Lend(count, Kind::Lines)),
        _ => Err(word.expected(What::Kind)),
    }
}

/// What to open: the count of cells, their size, the lengths and the strides.
fn open(cursor: &mut Cursor<'_>) -> Result<Command, Expected>
    ensures { Step cursor.old result cursor.new }
{
    let cells = number(cursor, Noun::Cells)?.value;
    let size = number(cursor, Noun::Size)?.value;
    let lens = row(cursor, Noun::Length)?;
    let strides = arrangement(cursor)?;
    Ok(Command::Open(Opening {
        cells,
        size,
        lens,
        strides,
    }))
}

/// An order, or a row of strides.
fn arrangement(cursor: &mut Cursor<'_>) -> Result<Strides<Vec<usize>>, Expected>
    ensures { Step cursor.old result cursor.new }
{
    cursor.skip_blanks();
    if cursor.is_next(b'[') {
        return strides(cursor).map(Strides::Custom);
    }
    let word = cursor.word();
    match word.value {
        b"c" => Ok(Strides::C),
        b"f" => Ok(Strides::F),
        _ => Err(word.expected(What::Strides)),
    }
}
