// CLEAR.
ghost use Rattle.std.specs.Prelude.{◌≡◌};
ghost use Rattle.rules.specs.Clear.{clear_of};
ghost use Rattle.services.specs.Kept.{said, answered};

use crate::{Answer, Tables};
use kinds::{EcbList, EcbNumber, Request, TaskNumber};

impl Tables {
    // CLEAR: the event control block's word becomes zero.
    pub fn clear(self, caller: TaskNumber, ecb: EcbNumber) -> Answer
        ensures { said result ≡ answered self (λ s. clear_of s caller ecb) }
    {
        self.plain(Request::Clear { caller, ecb }, EcbList::none())
    }
}
