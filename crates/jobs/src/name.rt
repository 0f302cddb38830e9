// Names of a line: the digits of the major part, a point, those of the minor part, and a slash and a length where it is
// not that of the bytes given.
ghost use Rattle.std.specs.Prelude.{◌≡◌, ◌*◌, ◌≤◌, length, IfSome};
ghost use Rattle.jobs.specs.Sizes.{highest_length, major_digits};

use crate::sizes::{HIGHEST_LENGTH, MAJOR_DIGITS, MOST_GIVEN};
use crate::{hex, number, word};
use kinds::Name;

// The major part that these digits make.
fn major_of(digits: &[u8]) -> Option<[u8; Name::MAJOR]>
    requires { length digits.now ≡ major_digits }
{
    let mut bytes = [0u8; Name::MAJOR];
    hex::read(digits, &mut bytes)?;
    Some(bytes)
}

// The minor part that these digits give: the bytes that have room are kept, up to its length. Missing ones are zero.
fn minor_of(given: &[u8], size: usize) -> Option<[u8; Name::LONGEST]>
    requires { length given.now ≤ 2 * highest_length }
{
    let mut bytes = [0u8; Name::LONGEST];
    hex::read(given, &mut bytes[..size.min(Name::LONGEST)])?;
    Some(bytes)
}

pub(crate) fn read(word: &[u8]) -> Option<Name>
    ensures { IfSome result (λ name. name.length ≤ highest_length) }
{
    let (digits, [b'.', rest @ ..]) = word.split_at_checked(MAJOR_DIGITS)? else {
        return None;
    };
    let (given, length) = word::cut(rest, b'/');
    if MOST_GIVEN < given.len() {
        return None;
    }
    let length = match length {
        Some(length) => number::read(length)? as usize,
        None => given.len() / 2,
    };
    if HIGHEST_LENGTH < length {
        return None;
    }
    Some(Name {
        major: major_of(digits)?,
        minor: minor_of(given, length)?,
        length: length as u16,
    })
}
