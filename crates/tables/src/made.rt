// What the body of a service makes: one form for all of them.
ghost use Rattle.std.specs.Prelude.{◌≡◌};
ghost use Rattle.kinds.specs.declared.replies.Reply.TheVariants.{Done};

use crate::AllTables;
use kinds::{No, Reply};

// The tables change only where the verdict is to go on, and the reply counts only there.
#[derive(Clone, Copy)]
pub struct Made {
    pub verdict: Result<(), No>,
    pub reply: Reply,
    pub tables: AllTables,
}

// The service goes on.
pub fn goes(reply: Reply, t: AllTables) -> Made
    ensures { result ≡ record { verdict = Ok tt; reply = reply; tables = t } }
{
    Made {
        verdict: Ok(()),
        reply,
        tables: t,
    }
}

// The service is refused or fails: the tables are as they were.
pub fn stays(verdict: Result<(), No>, t: AllTables) -> Made
    ensures { result ≡ record { verdict = verdict; reply = Done; tables = t } }
{
    Made {
        verdict,
        reply: Reply::Done,
        tables: t,
    }
}
