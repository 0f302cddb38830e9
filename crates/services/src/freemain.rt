// FREEMAIN.
ghost use Rattle.std.specs.Prelude.{◌≡◌};
ghost use Rattle.rules.specs.Freemain.{freemain_of};
ghost use Rattle.services.specs.Kept.{said, answered};

use crate::{Answer, Tables};
use kinds::{Address, EcbList, Request, TaskNumber};

impl Tables {
    // FREEMAIN: one whole area of the caller's or the step's goes.
    pub fn freemain(self, caller: TaskNumber, address: Address, bytes: u32, subpool: u8) -> Answer
        ensures { said result ≡ answered self (λ s. freemain_of s caller address bytes subpool) }
    {
        let request = Request::Freemain {
            caller,
            address,
            length: bytes,
            subpool,
        };
        self.plain(request, EcbList::none())
    }
}
