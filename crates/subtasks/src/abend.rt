// ABEND.
ghost use Rattle.std.specs.Prelude.{◌≡◌};
ghost use Rattle.rules.specs.Abend.{abend_verdict, abend_done};
ghost use Rattle.tables.specs.Tables.{step_of, Admitted};
ghost use Rattle.tables.specs.Bodies.{told, body_of};

use crate::end::end_good;
use kinds::{No, Refusal, Reply, TaskNumber};
use tables::AllTables;
use tables::made::{Made, goes, stays};

// 101, as END's.
#[tactic(auto, unfolding(rules::specs::Abend::abend_verdict), using(laws::specs::Decided::judged))]
fn abend_verdict(code: u16) -> Result<(), No>
    ensures { result ≡ abend_verdict code }
{
    if end_good(code) {
        Ok(())
    } else {
        Err(No::Refuse(Refusal::OutOfRange))
    }
}

// ABEND's test; where it goes on, the caller ends and its subtasks with it, or with STEP the whole step.
#[tactic(auto, unfolding(rules::specs::Abend::abend_done), using(tables::proofs::Bodies::bodies))]
pub fn served(t: AllTables, caller: TaskNumber, code: u16, step: bool) -> Made
    requires { Admitted t caller }
    ensures { told result ≡ body_of (abend_verdict code) t (abend_done (step_of t) caller code step) }
{
    match abend_verdict(code) {
        Ok(()) if step => goes(Reply::Done, tables::over_with(code)),
        Ok(()) => goes(Reply::Done, tables::ending::ended(t, caller, code)),
        Err(no) => stays(Err(no), t),
    }
}
