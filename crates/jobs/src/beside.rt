// The lists of a line, which stand beside its request: the words that are left.
ghost use Rattle.std.specs.Prelude.{◌≤◌, IfSome};
ghost use Rattle.jobs.specs.Sizes.{most_listed};

use crate::name;
use crate::sizes::MOST_LISTED;
use crate::word::Words;
use kinds::Wanted;

// How many words are read: all that are left, or as many as a line may have, and then one too many is still left. The
// first of them are put into `kept`, as many as have room.
pub(crate) fn read<T: Copy, F: Fn(&[u8]) -> Option<T>>(
    words: &mut Words,
    kept: &mut [T],
    read: F,
) -> Option<u32>
    requires { F.IsAlwaysCallable read }
    ensures { IfSome result (λ n. n ≤ most_listed) }
{
    for count in 0..MOST_LISTED {
        let Some(word) = words.word() else {
            return Some(count);
        };
        let x = read(word)?;
        if let Some(place) = kept.get_mut(count as usize) {
            *place = x;
        }
    }
    Some(MOST_LISTED)
}

// A name in an ENQ, with its `S:` or `E:`.
pub(crate) fn marked(word: &[u8]) -> Option<Wanted> {
    match word {
        [b'S', b':', name @ ..] => wanted(name, false),
        [b'E', b':', name @ ..] => wanted(name, true),
        _ => None,
    }
}

// A name in a DEQ, which has no use for how it is wanted.
pub(crate) fn unmarked(word: &[u8]) -> Option<Wanted> {
    wanted(word, false)
}

fn wanted(name: &[u8], exclusive: bool) -> Option<Wanted> {
    let name = name::read(name)?;
    Some(Wanted { exclusive, name })
}
