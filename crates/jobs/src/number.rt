// Decimal numbers of a line.
ghost use Rattle.std.specs.Prelude.{◌≡◌, length};
ghost use Rattle.kinds.specs.Ranges.{between};
ghost use Rattle.jobs.specs.Sizes.{most_digits};

use crate::sizes::MOST_DIGITS;
use kinds::EcbNumber;

// As many digits as a number has.
fn has_length(word: &[u8]) -> bool
    ensures { result ≡ between 1 most_digits (length word.now) }
{
    !word.is_empty() && word.len() <= MOST_DIGITS
}

// 1 to 10 digits, and not above the highest number.
pub(crate) fn read(word: &[u8]) -> Option<u32> {
    if !has_length(word) {
        return None;
    }
    word.iter().try_fold(0u32, |value, byte| {
        value
            .checked_mul(10)?
            .checked_add(char::from(*byte).to_digit(10)?)
    })
}

pub(crate) fn ecb(word: &[u8]) -> Option<EcbNumber> {
    read(word).map(|n| EcbNumber(byte(n)))
}

// The number, or the highest that a byte holds: no task, ECB or subpool has it.
pub(crate) fn byte(n: u32) -> u8 {
    u8::try_from(n).unwrap_or(u8::MAX)
}

// The number, or the highest that two bytes hold, which is above every range.
pub(crate) fn half(n: u32) -> u16 {
    u16::try_from(n).unwrap_or(u16::MAX)
}
