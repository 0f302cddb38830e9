// Who is stuck.
ghost use Rattle.std.specs.Prelude.{◌≡◌};
ghost use Rattle.rules.specs.Reports.{stuck_report};
ghost use Rattle.services.specs.Kept.{said_with, answered_with};

use crate::{Answer, Tables, answering, gate};
use kinds::Reply;

impl Tables {
    // Every stuck task once, with a place in the queue where it waits and a stuck task that it waits for there.
    pub fn stuck(self, list: &mut [u8]) -> Answer
        ensures { said_with result list.new ≡ answered_with self list.old stuck_report }
    {
        match gate(self.all, &self.names.bytes, None) {
            Err(why) => answering(self, Reply::Refused(why)),
            Ok(()) => answering(self, rings::reports::stuck(self.all.queue, list)),
        }
    }
}
