ghost use Rattle.std.specs.Prelude.{◌≡◌, ℕ, ◌+◌, ◌-◌, ◌^◌, ◌<◌, ◌≤◌, Result, MatchBool, MatchResult};
ghost use Rattle.std.proofs.Common.{rules};
ghost use Rattle.script.specs.Numerals.{Integer, Narrows, Natural, Numeral, ReadAs, extended, fitted, spelled};
ghost use Rattle.script.specs.declared.scan.numbers.Unread.TheVariants.{OutOfRange};

use std::num::TryFromIntError;

/// Why a word is no number of its type.
#[derive(Clone, Copy)]
pub(crate) enum Unread {
    NoNumber,
    OutOfRange,
}

impl From<TryFromIntError> for Unread {
    ghost from_gives = { λ _ r. r ≡ OutOfRange };

    fn from(_error: TryFromIntError) -> Unread {
        Unread::OutOfRange
    }
}

/// A type of the numbers from 0 up to a limit.
pub(crate) trait Unsigned: TryFrom<u64, Error = TryFromIntError> {
    /// The first number that is too large.
    ghost limit: { ℕ };

    /// The number that a value is.
    ghost number: { Self → ℕ };

    /// A number becomes a value just where it is below the limit, which is within 64 bits.
    ghost narrows: { Narrows Self.try_from_gives number limit };
}

// One impl for each width, since no macro of a crate may write them.
impl Unsigned for u8 {
    ghost limit = { 2 ^ 8 };

    ghost number = { λ x. x };

    ghost narrows = { Prim.search rules };
}

impl Unsigned for u32 {
    ghost limit = { 2 ^ 32 };

    ghost number = { λ x. x };

    ghost narrows = { Prim.search rules };
}

impl Unsigned for usize {
    ghost limit = { 2 ^ 64 };

    ghost number = { λ x. x };

    ghost narrows = { Prim.search rules };
}

/// Whether a word is digits alone, and has one.
fn is_numeral(word: &[u8]) -> bool
    ensures { MatchBool result (Numeral word.now) (Numeral word.now → ⊥) }
{
    !word.is_empty() && word.iter().all(u8::is_ascii_digit)
}

/// The number with one more digit, if it fits.
fn with_digit(number: Option<u64>, byte: &u8) -> Option<u64>
    ensures { result ≡ extended number (byte.now - 48) }
{
    let digit = u64::from(byte.saturating_sub(b'0'));
    number?.checked_mul(10)?.checked_add(digit)
}

/// The number that digits spell, if it fits 64 bits.
fn value(word: &[u8]) -> Option<u64>
    ensures { result ≡ fitted (spelled word.now) }
{
    word.iter().fold(Some(0), with_digit)
}

/// A decimal number of 64 bits; a word that has another byte than digits is none, however long it is.
fn decimal(word: &[u8]) -> Result<u64, Unread>
    ensures { Natural (2 ^ 64) word.now result }
{
    if !is_numeral(word) {
        return Err(Unread::NoNumber);
    }
    value(word).ok_or(Unread::OutOfRange)
}

/// A decimal number of an unsigned type.
pub(crate) fn natural<T: Unsigned>(word: &[u8]) -> Result<T, Unread>
    ensures { ReadAs T.number T.limit word.now result }
{
    Ok(T::try_from(decimal(word)?)?)
}

/// A decimal number that may have a minus in front.
pub(crate) fn integer(word: &[u8]) -> Result<i64, Unread>
    ensures { Integer word.now result }
{
    let number = match word.strip_prefix(b"-") {
        Some(digits) => -i128::from(decimal(digits)?),
        None => i128::from(decimal(word)?),
    };
    Ok(i64::try_from(number)?)
}
