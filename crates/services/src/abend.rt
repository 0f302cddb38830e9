// ABEND.
ghost use Rattle.std.specs.Prelude.{◌≡◌};
ghost use Rattle.rules.specs.Abend.{abend_of};
ghost use Rattle.services.specs.Kept.{said, answered};

use crate::{Answer, Tables};
use kinds::{EcbList, Request, TaskNumber};

impl Tables {
    // ABEND: the caller ends and its subtasks with it, or with STEP the whole step.
    pub fn abend(self, caller: TaskNumber, code: u16, step: bool) -> Answer
        ensures { said result ≡ answered self (λ s. abend_of s caller code step) }
    {
        self.plain(Request::Abend { caller, code, step }, EcbList::none())
    }
}
