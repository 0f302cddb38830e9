// WAIT.
ghost use Rattle.std.specs.Prelude.{◌≡◌};
ghost use Rattle.rules.specs.Wait.{wait_of};
ghost use Rattle.ecbs.specs.Blocks.{ecbs_in};
ghost use Rattle.services.specs.Kept.{said, answered};

use crate::{Answer, Tables};
use kinds::{EcbList, Request, TaskNumber};

impl Tables {
    // WAIT: the caller goes on when so many of the listed events are complete.
    pub fn wait(self, caller: TaskNumber, ecbs: EcbList, count: u32) -> Answer
        ensures { said result ≡ answered self (λ s. wait_of s caller (ecbs_in ecbs) count) }
    {
        self.plain(Request::Wait { caller, count }, ecbs)
    }
}
