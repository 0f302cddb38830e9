// POST.
ghost use Rattle.std.specs.Prelude.{◌≡◌};
ghost use Rattle.rules.specs.Post.{post_of};
ghost use Rattle.services.specs.Kept.{said, answered};

use crate::{Answer, Tables};
use kinds::{EcbList, EcbNumber, Request, TaskNumber};

impl Tables {
    // POST: the event is complete, and its waiter needs one post fewer.
    pub fn post(self, caller: TaskNumber, ecb: EcbNumber, code: u32) -> Answer
        ensures { said result ≡ answered self (λ s. post_of s caller ecb code) }
    {
        self.plain(Request::Post { caller, ecb, code }, EcbList::none())
    }
}
