// What is said on standard error where the system does not read or write.
use crate::text::Unwritten;
use arrayvec::ArrayString;
use std::fmt::Write;
use std::io::{Error, ErrorKind, Print, Stderr};

// No text of an error is longer, in bytes.
const LONGEST: usize = 256;

// What stands between that text and the error's number, which is not said.
const NUMBER: &str = " (os error ";

// Whoever broke the pipe wants no more answers, so there is nothing to say.
pub(crate) fn unwritten(stderr: Stderr, e: Error) -> Unwritten {
    if e.kind() == ErrorKind::BrokenPipe {
        return Unwritten::Unwanted;
    }
    fail(stderr, "run: the answers cannot be written", e);
    Unwritten::Lost
}

pub(crate) fn unread(stderr: Stderr, e: Error) {
    fail(stderr, "run: the script cannot be read", e);
}

// What failed, a colon and the error's text. Where standard error too does not take it, nobody is told.
fn fail(stderr: Stderr, what: &str, e: Error) {
    let mut all = ArrayString::<LONGEST>::new();
    let _ = write!(all, "{e}");
    let text = all.as_str();
    let why = text.split_once(NUMBER).map_or(text, |(before, _)| before);
    let _ = stderr.println(format_args!("{what}: {why}"));
}
