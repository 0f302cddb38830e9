// ATTACH.
ghost use Rattle.std.specs.Prelude.{◌≡◌};
ghost use Rattle.rules.specs.Attach.{attach_of};
ghost use Rattle.services.specs.Kept.{said, answered};

use crate::{Answer, Tables};
use kinds::{EcbList, EcbNumber, Request, TaskNumber};

impl Tables {
    // ATTACH: a new task, ready, with the caller for its mother.
    pub fn attach(
        self,
        caller: TaskNumber,
        lpmod: u16,
        dpmod: i16,
        ecb: Option<EcbNumber>,
    ) -> Answer
        ensures { said result ≡ answered self (λ s. attach_of s caller lpmod dpmod ecb) }
    {
        let request = Request::Attach {
            caller,
            lpmod,
            dpmod,
            ecb,
        };
        self.plain(request, EcbList::none())
    }
}
