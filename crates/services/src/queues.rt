// Who stands in which queue.
ghost use Rattle.std.specs.Prelude.{◌≡◌};
ghost use Rattle.rules.specs.Reports.{queues_report};
ghost use Rattle.services.specs.Kept.{said_with, answered_with};

use crate::{Answer, Tables, answering, gate};
use kinds::Reply;

impl Tables {
    // For each name in the order of its first entry, its owners and waiters in queue order.
    pub fn queues(self, list: &mut [u8]) -> Answer
        ensures { said_with result list.new ≡ answered_with self list.old queues_report }
    {
        match gate(self.all, &self.names.bytes, None) {
            Err(why) => answering(self, Reply::Refused(why)),
            Ok(()) => answering(self, rings::reports::queues(self.all.queue, list)),
        }
    }
}
