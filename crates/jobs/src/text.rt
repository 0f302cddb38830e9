// Bytes to be written, kept in a block until it is full.
ghost use Rattle.std.specs.Prelude.{◌≡◌, ◌+◌, ◌<◌, ◌≤◌, OnOk, OnErr, IsOk, IsErr};
ghost use Rattle.jobs.specs.Sizes.{block_size};

use crate::failure;
use crate::sizes::BLOCK;
use std::fmt;
use std::io::{Print, Stderr, Stdout};

const DIGITS: &[u8; 16] = b"0123456789abcdef";

// Why no more can be written.
#[derive(Clone, Copy, PartialEq, Eq)]
pub(crate) enum Unwritten {
    // Standard error has been told.
    Lost,
    // Nobody reads the answers any more.
    Unwanted,
}

// The first `length` bytes of the block are still to be written, to standard output; standard error is told where they
// cannot be. Then `written` says why, and whoever writes is given an error and writes no more.
#[derive(Drop)]
pub(crate) struct Out {
    stdout: Stdout,
    stderr: Stderr,
    bytes: [u8; BLOCK],
    length: usize,
    written: Result<(), Unwritten>,
    ghost within: { length ≤ block_size },
}

impl Out {
    pub(crate) fn new(stdout: Stdout, stderr: Stderr) -> Out {
        Out {
            stdout,
            stderr,
            bytes: [0; BLOCK],
            length: 0,
            written: Ok(()),
        }
    }

    // Writes the block's bytes, and the block is empty. Where a write has failed before, nothing is written any more.
    fn flush(&mut self) -> fmt::Result
        ensures emptied { OnOk result (self.new.length ≡ 0) }
        ensures kept { OnOk result (self.new.written ≡ self.old.written) }
        ensures told { OnErr result (IsErr self.new.written) }
        ensures failed { IsErr self.old.written → self.new.written ≡ self.old.written }
    {
        self.written.map_err(|_| fmt::Error)?;
        let n = self.length;
        self.length = 0;
        match self.stdout.write_all(&self.bytes[..n]) {
            Ok(()) => Ok(()),
            Err(e) => {
                self.written = Err(failure::unwritten(self.stderr, e));
                Err(fmt::Error)
            }
        }
    }

    #[inline]
    fn put(&mut self, byte: u8) -> fmt::Result
        ensures value { self.old.length < block_size → IsOk result × (self.new.length ≡ self.old.length + 1) }
        ensures kept { OnOk result (self.new.written ≡ self.old.written) }
        ensures told { OnErr result (IsErr self.new.written) }
        ensures failed { IsErr self.old.written → self.new.written ≡ self.old.written }
    {
        if self.length == BLOCK {
            self.flush()?;
        }
        self.bytes[self.length] = byte;
        self.length += 1;
        Ok(())
    }

    // Two lower case digits for each byte: a `write!` of each takes longer.
    pub(crate) fn put_hex(&mut self, bytes: &[u8]) -> fmt::Result
        ensures kept { OnOk result (self.new.written ≡ self.old.written) }
        ensures told { OnErr result (IsErr self.new.written) }
        ensures failed { IsErr self.old.written → self.new.written ≡ self.old.written }
    {
        for byte in bytes {
            self.put(DIGITS[usize::from(*byte) / DIGITS.len()])?;
            self.put(DIGITS[usize::from(*byte) % DIGITS.len()])?;
        }
        Ok(())
    }

    // Writes what is left, unless a write has failed before.
    pub(crate) fn finish(&mut self) -> Result<(), Unwritten>
        ensures emptied { OnOk result (self.new.length ≡ 0) }
        ensures kept { IsErr self.old.written → result ≡ self.old.written }
        ensures told { result ≡ self.new.written }
    {
        let _ = self.flush();
        self.written
    }
}

impl fmt::Write for Out {
    ghost write_str_gives = { λ before _ after. after.written ≡ before.written };

    fn write_str(&mut self, s: &str) -> fmt::Result
        ensures kept { OnOk result (self.new.written ≡ self.old.written) }
        ensures told { OnErr result (IsErr self.new.written) }
        ensures failed { IsErr self.old.written → self.new.written ≡ self.old.written }
    {
        for byte in s.as_bytes() {
            self.put(*byte)?;
        }
        Ok(())
    }
}
