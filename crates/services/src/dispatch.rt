// DISPATCH.
ghost use Rattle.std.specs.Prelude.{◌≡◌};
ghost use Rattle.rules.specs.Dispatch.{dispatch_of};
ghost use Rattle.services.specs.Kept.{said, answered};

use crate::{Answer, Tables};
use kinds::{EcbList, Request};

impl Tables {
    // DISPATCH: the ready task of highest dispatching priority.
    pub fn dispatch(self) -> Answer
        ensures { said result ≡ answered self dispatch_of }
    {
        self.plain(Request::Dispatch, EcbList::none())
    }
}
