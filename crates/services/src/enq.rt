// ENQ.
ghost use Rattle.std.specs.Prelude.{◌≡◌};
ghost use Rattle.names.specs.Named.{names_in};
ghost use Rattle.rules.specs.Enq.{enq_of};
ghost use Rattle.services.specs.Kept.{said_with, answered_with};

use crate::{Answer, Tables};
use kinds::{EcbList, NameList, Request, Ret, TaskNumber};

impl Tables {
    // ENQ: the names are queued for, tested or made exclusive, with a code for each name unless it is NONE.
    pub fn enq(self, caller: TaskNumber, ret: Ret, names: NameList, codes: &mut [u8]) -> Answer
        ensures { said_with result codes.new
            ≡ answered_with self codes.old (λ s area. enq_of s caller ret (names_in names) area) }
    {
        self.serve(Request::Enq { caller, ret }, names, EcbList::none(), codes)
    }
}
