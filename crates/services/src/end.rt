// END.
ghost use Rattle.std.specs.Prelude.{◌≡◌};
ghost use Rattle.rules.specs.End.{end_of};
ghost use Rattle.services.specs.Kept.{said, answered};

use crate::{Answer, Tables};
use kinds::{EcbList, Request, TaskNumber};

impl Tables {
    // END: the caller, which has no subtasks, ends.
    pub fn end(self, caller: TaskNumber, code: u16) -> Answer
        ensures { said result ≡ answered self (λ s. end_of s caller code) }
    {
        self.plain(Request::End { caller, code }, EcbList::none())
    }
}
