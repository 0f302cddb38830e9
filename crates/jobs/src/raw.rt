// A place of a table as raw fields: a dump shows them, and a poke overwrites one and goes back to the place.
ghost use Rattle.std.specs.Prelude.{◌*◌, ◌<◌, ◌^◌};

// The fields are numbers, in the order in which a line of the dump has them. What is generic in N requires that an
// array of so many has a size.
pub(crate) trait Row<const N: usize>: Copy {
    fn raw(self) -> [u32; N];

    // The place with these fields, where the table can hold it.
    fn held(raw: [u32; N]) -> Option<Self>;
}

// A field of the place is not zero.
pub(crate) fn is_used<const N: usize, R: Row<N>>(place: &R) -> bool
    requires { N * 4 < 2 ^ 63 }
{
    place.raw().iter().any(|n| *n != 0)
}

// One more than the highest place with a field that is not zero.
pub(crate) fn used<const N: usize, R: Row<N>>(places: &[R]) -> usize
    requires { N * 4 < 2 ^ 63 }
{
    places
        .iter()
        .rposition(is_used::<N, R>)
        .map_or(0, |last| last + 1)
}

pub(crate) fn held_flag(n: u32) -> Option<bool> {
    match n {
        0 => Some(false),
        1 => Some(true),
        _ => None,
    }
}

pub(crate) fn held_byte(n: u32) -> Option<u8> {
    u8::try_from(n).ok()
}

pub(crate) fn held_half(n: u32) -> Option<u16> {
    u16::try_from(n).ok()
}
