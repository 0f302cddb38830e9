// DETACH.
ghost use Rattle.std.specs.Prelude.{◌≡◌};
ghost use Rattle.rules.specs.Detach.{detach_of};
ghost use Rattle.services.specs.Kept.{said, answered};

use crate::{Answer, Tables};
use kinds::{EcbList, Request, TaskNumber};

impl Tables {
    // DETACH: a direct subtask goes, live or ended.
    pub fn detach(self, caller: TaskNumber, task: TaskNumber) -> Answer
        ensures { said result ≡ answered self (λ s. detach_of s caller task) }
    {
        self.plain(Request::Detach { caller, task }, EcbList::none())
    }
}
