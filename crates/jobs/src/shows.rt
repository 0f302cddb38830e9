// What a line shows of the tables: all of them, or a report. They stay as they are.
ghost use Rattle.std.specs.Prelude.{◌≡◌, OnOk};

use crate::text::Out;
use crate::{listing, reports};
use services::Tables;
use std::fmt;

#[derive(Clone, Copy)]
pub(crate) enum Report {
    Stuck,
    Queues,
}

#[derive(Clone, Copy)]
pub(crate) enum Shows {
    Tables,
    // The list area has room for so many items.
    Report { report: Report, room: u8 },
}

impl Shows {
    pub(crate) fn put(self, t: &Tables, out: &mut Out) -> fmt::Result
        ensures { OnOk result (out.new.written ≡ out.old.written) }
    {
        match self {
            Shows::Tables => listing::dump(t, out),
            Shows::Report { report, room } => report.put(t, room, out),
        }
    }
}

impl Report {
    fn put(self, t: &Tables, room: u8, out: &mut Out) -> fmt::Result
        ensures { OnOk result (out.new.written ≡ out.old.written) }
    {
        match self {
            Report::Stuck => reports::stuck(t, room, out),
            Report::Queues => reports::queues(t, room, out),
        }
    }
}
