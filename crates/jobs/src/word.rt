// Words of a line, one space between.
ghost use Rattle.std.specs.Prelude.{◌≤◌, IfSome};

use crate::number;
use kinds::{EcbNumber, TaskNumber};

// What stands before the first `separator`, and what stands after it if there is one.
pub(crate) fn cut(bytes: &[u8], separator: u8) -> (&[u8], Option<&[u8]>) {
    match bytes.iter().position(|byte| *byte == separator) {
        Some(at) => (&bytes[..at], Some(&bytes[at + 1..])),
        None => (bytes, None),
    }
}

// The words of a line that are still to be read. An empty line is one empty word, and so is what a last space leaves.
// It is no `Iterator`: `beside::read` then asks for a proof that the words end, for the same code.
#[derive(Drop)]
pub(crate) struct Words<'a> {
    left: Option<&'a [u8]>,
}

impl<'a> Words<'a> {
    pub(crate) fn of(line: &'a [u8]) -> Words<'a> {
        Words { left: Some(line) }
    }

    pub(crate) fn word(&mut self) -> Option<&'a [u8]> {
        let (word, left) = cut(self.left?, b' ');
        self.left = left;
        Some(word)
    }

    pub(crate) fn number(&mut self) -> Option<u32> {
        number::read(self.word()?)
    }

    pub(crate) fn up_to(&mut self, most: usize) -> Option<usize>
        ensures { IfSome result (λ n. n ≤ most) }
    {
        let n = self.number()? as usize;
        (n <= most).then_some(n)
    }

    pub(crate) fn byte(&mut self) -> Option<u8> {
        self.number().map(number::byte)
    }

    pub(crate) fn half(&mut self) -> Option<u16> {
        self.number().map(number::half)
    }

    pub(crate) fn task(&mut self) -> Option<TaskNumber> {
        self.byte().map(TaskNumber)
    }

    pub(crate) fn ecb(&mut self) -> Option<EcbNumber> {
        number::ecb(self.word()?)
    }
}
