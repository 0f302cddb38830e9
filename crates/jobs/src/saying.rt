// What is written for a line.
ghost use Rattle.std.specs.Prelude.{◌≡◌, OnOk};

use crate::text::Out;
use std::fmt;
use std::fmt::Write;

#[derive(Clone, Copy)]
pub(crate) enum Said {
    Nothing,
    Unreadable,
    NotHeld,
    Ok,
}

impl Said {
    // For line `number` of the script.
    #[tactic(auto, using(crate::proofs::Writes::none_failed))]
    pub(crate) fn put(self, number: u64, out: &mut Out) -> fmt::Result
        ensures { OnOk result (out.new.written ≡ out.old.written) }
    {
        match self {
            Said::Nothing => Ok(()),
            Said::Unreadable => writeln!(out, "? {number}"),
            Said::NotHeld => writeln!(out, "! {number}"),
            Said::Ok => out.write_str("ok\n"),
        }
    }
}
