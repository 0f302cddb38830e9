// ATTACH: its tests, and the place of a new task.
ghost use Rattle.std.specs.Prelude.{◌≡◌, eqb};
ghost use Rattle.rules.specs.Attach.{new_limit, new_dispatching, lowest_free, attach_good, attach_verdict, new_task};
ghost use Rattle.rules.specs.Attach.{attach_done};
ghost use Rattle.tables.specs.Tables.{step_of, Admitted};
ghost use Rattle.tables.specs.Bodies.{told, body_of};

use kinds::{Condition, EcbNumber, No, Refusal, Reply, Task, TaskNumber};
use tables::AllTables;
use tables::made::{Made, goes, stays};
use tasks::TaskTable;

// The mother's limit less LPMOD, or 0 if that is negative.
fn new_limit(limit: u8, lpmod: u16) -> u8
    ensures { result ≡ new_limit limit lpmod }
{
    (limit as u16).saturating_sub(lpmod) as u8
}

// The mother's dispatching priority plus DPMOD, held to at least 0 and at most the new limit.
// The sum is made in a type that holds every sum.
fn new_dispatching(dispatching: u8, dpmod: i16, limit: u8) -> u8
    ensures { result ≡ new_dispatching dispatching dpmod limit }
{
    (dispatching as i32 + dpmod as i32).clamp(0, limit as i32) as u8
}

// The new task's place: m is its mother's, whose number is c.
#[tactic(auto, unfolding(rules::specs::Attach::new_task))]
fn new_task(m: Task, c: TaskNumber, lpmod: u16, dpmod: i16, ecb: Option<EcbNumber>) -> Task
    ensures { result ≡ new_task m c lpmod dpmod ecb }
{
    let limit = new_limit(m.limit, lpmod);
    Task {
        condition: Condition::Ready,
        mother: c,
        limit,
        dispatching: new_dispatching(m.dispatching, dpmod, limit),
        ecb,
    }
}

// 101.
#[tactic(auto, unfolding(rules::specs::Attach::attach_good))]
fn attach_good(lpmod: u16, dpmod: i16, ecb: Option<EcbNumber>) -> bool
    ensures { result ≡ attach_good lpmod dpmod ecb }
{
    Task::priority_good(lpmod) && Task::dpmod_good(dpmod) && tasks::sound::ecb_good(ecb)
}

// 106.
fn none_free(f: TaskTable) -> bool
    ensures { result ≡ eqb (lowest_free f.places) 0 }
{
    tasks::choice::lowest_free(f).0 == 0
}

// 101, then 106.
#[tactic(auto, unfolding(rules::specs::Attach::attach_verdict), using(laws::specs::Decided::judged))]
fn attach_verdict(f: TaskTable, lpmod: u16, dpmod: i16, ecb: Option<EcbNumber>) -> Result<(), No>
    ensures { result ≡ attach_verdict f.places lpmod dpmod ecb }
{
    if !attach_good(lpmod, dpmod, ecb) {
        return Err(No::Refuse(Refusal::OutOfRange));
    }
    if none_free(f) {
        return Err(No::Refuse(Refusal::NoTaskFree));
    }
    Ok(())
}

// ATTACH's tests; where they go on, the new task has the lowest free place, and the caller for its mother.
#[tactic(auto, using(tables::proofs::Bodies::bodies))]
pub fn served(
    t: AllTables,
    caller: TaskNumber,
    lpmod: u16,
    dpmod: i16,
    ecb: Option<EcbNumber>,
) -> Made
    requires { Admitted t caller }
    ensures { told result ≡ body_of (attach_verdict t.tasks.places lpmod dpmod ecb) t
        (attach_done (step_of t) caller lpmod dpmod ecb) }
{
    match attach_verdict(t.tasks, lpmod, dpmod, ecb) {
        Ok(()) => {
            let n = tasks::choice::lowest_free(t.tasks);
            let x = new_task(tasks::at(t.tasks, caller), caller, lpmod, dpmod, ecb);
            let f = tasks::with_place(t.tasks, n, x);
            goes(Reply::Attached(n), tables::put_tasks(t, f))
        }
        Err(no) => stays(Err(no), t),
    }
}
