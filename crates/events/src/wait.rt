// WAIT.
ghost use Rattle.std.specs.Prelude.{◌≡◌};
ghost use Rattle.rules.specs.Wait.{wait_verdict, wait_done};
ghost use Rattle.ecbs.specs.Blocks.{ecbs_in};
ghost use Rattle.tables.specs.Tables.{step_of, Admitted};
ghost use Rattle.tables.specs.Bodies.{told, body_of};

use crate::ecb_list::{complete_of, wait_set, wait_verdict};
use kinds::{Condition, EcbList, Reply, TaskNumber};
use tables::AllTables;
use tables::made::{Made, goes, stays};

// With as many complete as the count, the caller goes on and nothing changes; else it waits for the posts that are
// missing. A count that goes on is at most that of the list, so it fits.
fn goes_on(t: AllTables, caller: TaskNumber, ecbs: EcbList, count: u32) -> Made
    requires { Admitted t caller × (wait_verdict t.ecbs.ecbs (ecbs_in ecbs) count ≡ Ok tt) }
    ensures { told result ≡ body_of (Ok tt) t (wait_done (step_of t) caller (ecbs_in ecbs) count) }
{
    let complete = complete_of(t.ecbs, ecbs);
    if count <= complete {
        return goes(Reply::Done, t);
    }
    let posts = (count - complete) as u8;
    let x = tasks::at(t.tasks, caller).with_condition(Condition::EcbWait(posts));
    let u = tables::put_ecbs(t, wait_set(t.ecbs, caller, ecbs));
    goes(
        Reply::Done,
        tables::put_tasks(u, tasks::with_place(t.tasks, caller, x)),
    )
}

// WAIT's tests; where they go on, the caller waits for as many posts as are missing.
#[tactic(auto, using(tables::proofs::Bodies::bodies))]
pub fn served(t: AllTables, caller: TaskNumber, ecbs: EcbList, count: u32) -> Made
    requires { Admitted t caller }
    ensures { told result ≡ body_of (wait_verdict t.ecbs.ecbs (ecbs_in ecbs) count) t
        (wait_done (step_of t) caller (ecbs_in ecbs) count) }
{
    match wait_verdict(t.ecbs, ecbs, count) {
        Ok(()) => goes_on(t, caller, ecbs, count),
        Err(no) => stays(Err(no), t),
    }
}
