ghost use Rattle.std.specs.Prelude.{◌≡◌, IfErr};
ghost use Rattle.script.specs.Cursors.{Step};

use crate::command::{Marked, Value};
use crate::expected::{Expected, Noun, What};
use crate::scan::Cursor;
use crate::scan::numbers::{Unread, integer, natural};
use cells::PayLine;

impl Unread {
    /// What is wrong at the column of a word that is not read as a number.
    fn at(self, column: usize, missing: What, noun: Noun) -> Expected
        ensures { result.column ≡ column }
    {
        let what = match self {
            Unread::NoNumber => missing,
            Unread::OutOfRange => What::Range(noun),
        };
        Expected { column, what }
    }
}

impl<'a> Marked<&'a [u8]> {
    /// The word as a number, by a way to read it, where something else might stand in its place.
    pub(super) fn read_or<T, F: Fn(&[u8]) -> Result<T, Unread>>(
        &self,
        read: F,
        missing: What,
        noun: Noun,
    ) -> Result<T, Expected>
        requires { F.IsAlwaysCallable read }
        ensures { IfErr result (λ e. e.column ≡ self.now.column) }
    {
        let column = self.column;
        read(self.value).map_err(|unread| unread.at(column, missing, noun))
    }

    /// The word as a number, by a way to read it.
    pub(super) fn read<T, F: Fn(&[u8]) -> Result<T, Unread>>(
        &self,
        read: F,
        noun: Noun,
    ) -> Result<T, Expected>
        requires { F.IsAlwaysCallable read }
        ensures { IfErr result (λ e. e.column ≡ self.now.column) }
    {
        self.read_or(read, What::Number(noun), noun)
    }
}

/// The next word as a number of 64 bits.
pub(super) fn number(cursor: &mut Cursor<'_>, noun: Noun) -> Result<Marked<usize>, Expected>
    ensures { Step cursor.old result cursor.new }
{
    let word = cursor.next_word();
    let column = word.column;
    let value = word.read(natural, noun)?;
    Ok(Marked { column, value })
}

/// The next word as a stride, kept as its word of two's complement.
pub(super) fn stride(cursor: &mut Cursor<'_>) -> Result<usize, Expected>
    ensures { Step cursor.old result cursor.new }
{
    let word = cursor.next_word();
    Ok(word.read(integer, Noun::Stride)?.cast_unsigned() as usize)
}

/// A cell's value: an amount, or a pay line, which has slashes.
pub(super) fn value(cursor: &mut Cursor<'_>) -> Result<Marked<Value>, Expected>
    ensures { Step cursor.old result cursor.new }
{
    let first = cursor.next_word();
    let column = first.column;
    if !cursor.take(b'/') {
        let value = Value::from(first.read_or(integer, What::Value, Noun::Amount)?);
        return Ok(Marked { column, value });
    }
    let person = first.read(natural, Noun::Person)?;
    let value = Value::from(pay_line(person, cursor)?);
    Ok(Marked { column, value })
}

/// A pay line of which the person and a slash are read.
fn pay_line(person: u32, cursor: &mut Cursor<'_>) -> Result<PayLine, Expected>
    ensures { Step cursor.old result cursor.new }
{
    let code = cursor.word().read(natural, Noun::Code)?;
    cursor.demand(b'/', What::Slash)?;
    let cents = cursor.word().read(integer, Noun::Amount)?;
    Ok(PayLine {
        person,
        code,
        cents,
    })
}
