// DETACH.
ghost use Rattle.std.specs.Prelude.{◌≡◌};
ghost use Rattle.rules.specs.Detach.{detach_good, detach_verdict, detach_done};
ghost use Rattle.tables.specs.Tables.{step_of, Admitted};
ghost use Rattle.tables.specs.Bodies.{told, body_of};

use kinds::{Fault, No, Refusal, Reply, Task, TaskNumber};
use tables::AllTables;
use tables::made::{Made, goes, stays};
use tasks::TaskTable;

// 101.
#[tactic(auto, unfolding(rules::specs::Detach::detach_good))]
fn detach_good(task: TaskNumber) -> bool
    ensures { result ≡ detach_good task }
{
    task.is_good()
}

// 101, then 208.
#[tactic(auto, unfolding(rules::specs::Detach::detach_verdict), using(laws::specs::Decided::judged))]
pub fn detach_verdict(f: TaskTable, c: TaskNumber, task: TaskNumber) -> Result<(), No>
    ensures { result ≡ detach_verdict f.places c task }
{
    if !detach_good(task) {
        return Err(No::Refuse(Refusal::OutOfRange));
    }
    if !tasks::direct::is_subtask(f, c, task) {
        return Err(No::Fail(Fault::NotSubtask));
    }
    Ok(())
}

// DETACH's tests; where they go on, the task goes with all below it, and nothing is posted.
#[tactic(auto, using(tables::proofs::Bodies::bodies))]
pub fn served(t: AllTables, caller: TaskNumber, task: TaskNumber) -> Made
    requires { Admitted t caller }
    ensures { told result ≡ body_of (detach_verdict t.tasks.places caller task) t (detach_done (step_of t) task) }
{
    match detach_verdict(t.tasks, caller, task) {
        Ok(()) => goes(Reply::Done, tables::ending::without(t, task, Task::free())),
        Err(no) => stays(Err(no), t),
    }
}
