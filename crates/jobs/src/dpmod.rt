// DPMOD, the one number with a sign.
use crate::number;

// The highest that is kept, which is above DPMOD's range.
const HIGHEST: i32 = i16::MAX as i32;

// A number, or `-` and a number that may be higher by one. What is further from 0 than HIGHEST is read as HIGHEST, or
// as HIGHEST with a minus: DPMOD's range has neither.
pub(crate) fn read(word: &[u8]) -> Option<i16> {
    let value = match word {
        [b'-', digits @ ..] => -i64::from(number::read(digits)?),
        _ => i64::from(number::read(word)?),
    };
    let value = i32::try_from(value).ok()?;
    Some(value.clamp(-HIGHEST, HIGHEST) as i16)
}
