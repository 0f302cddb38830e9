// GETMAIN.
ghost use Rattle.std.specs.Prelude.{◌≡◌};
ghost use Rattle.rules.specs.Getmain.{getmain_of};
ghost use Rattle.services.specs.Kept.{said, answered};

use crate::{Answer, Tables};
use kinds::{EcbList, Request, TaskNumber};

impl Tables {
    // GETMAIN: an area of storage at the lowest address that has room for it.
    pub fn getmain(self, caller: TaskNumber, bytes: u32, subpool: u8, conditional: bool) -> Answer
        ensures { said result ≡ answered self (λ s. getmain_of s caller bytes subpool conditional) }
    {
        let request = Request::Getmain {
            caller,
            length: bytes,
            subpool,
            conditional,
        };
        self.plain(request, EcbList::none())
    }
}
