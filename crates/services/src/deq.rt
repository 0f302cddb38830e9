// DEQ.
ghost use Rattle.std.specs.Prelude.{◌≡◌};
ghost use Rattle.names.specs.Named.{names_in};
ghost use Rattle.rules.specs.Deq.{deq_of};
ghost use Rattle.services.specs.Kept.{said_with, answered_with};

use crate::{Answer, Tables};
use kinds::{DeqRet, EcbList, NameList, Request, TaskNumber};

impl Tables {
    // DEQ: the caller's entries for the names go, with a code for each name if it asks for codes.
    pub fn deq(self, caller: TaskNumber, ret: DeqRet, names: NameList, codes: &mut [u8]) -> Answer
        ensures { said_with result codes.new
            ≡ answered_with self codes.old (λ s area. deq_of s caller ret (names_in names) area) }
    {
        self.serve(Request::Deq { caller, ret }, names, EcbList::none(), codes)
    }
}
