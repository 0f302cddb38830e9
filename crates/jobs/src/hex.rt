// Hexadecimal digits of a line, two to a byte.
ghost use Rattle.std.specs.Prelude.{◌<◌, IfSome};

// What a digit counts is below this.
pub(crate) const BASE: u8 = 16;

// By bytes: `to_digit` of a char takes longer.
fn digit(byte: u8) -> Option<u8>
    ensures { IfSome result (λ n. n < 16) }
{
    match byte {
        b'0'..=b'9' => Some(byte - b'0'),
        b'a'..=b'f' => Some(byte - b'a' + 10),
        b'A'..=b'F' => Some(byte - b'A' + 10),
        _ => None,
    }
}

pub(crate) fn byte(high: u8, low: u8) -> Option<u8> {
    Some(digit(high)? * BASE + digit(low)?)
}

// How many bytes the digits make. The first of them are put into `kept`, as many as have room.
pub(crate) fn read(digits: &[u8], kept: &mut [u8]) -> Option<usize> {
    let (pairs, odd) = digits.as_chunks::<2>();
    if !odd.is_empty() {
        return None;
    }
    let (first, rest) = pairs.split_at(pairs.len().min(kept.len()));
    for (place, [high, low]) in kept.iter_mut().zip(first) {
        *place = byte(*high, *low)?;
    }
    rest.iter()
        .all(|[high, low]| byte(*high, *low).is_some())
        .then_some(pairs.len())
}
