// END.
ghost use Rattle.std.specs.Prelude.{◌≡◌};
ghost use Rattle.rules.specs.End.{end_good, end_verdict, end_done};
ghost use Rattle.tables.specs.Tables.{step_of, Admitted};
ghost use Rattle.tables.specs.Bodies.{told, body_of};

use kinds::{Fault, No, Refusal, Reply, Task, TaskNumber};
use tables::AllTables;
use tables::made::{Made, goes, stays};
use tasks::TaskTable;

// 101.
#[tactic(auto, unfolding(rules::specs::End::end_good))]
pub(crate) fn end_good(code: u16) -> bool
    ensures { result ≡ end_good code }
{
    Task::code_good(code)
}

// 101, then 207.
#[tactic(auto, unfolding(rules::specs::End::end_verdict), using(laws::specs::Decided::judged))]
pub fn end_verdict(f: TaskTable, c: TaskNumber, code: u16) -> Result<(), No>
    ensures { result ≡ end_verdict f.places c code }
{
    if !end_good(code) {
        return Err(No::Refuse(Refusal::OutOfRange));
    }
    if tasks::direct::has_subtasks(f, c) {
        return Err(No::Fail(Fault::HasSubtasks));
    }
    Ok(())
}

// END's tests; where they go on, the caller, which has no subtasks, ends.
#[tactic(auto, unfolding(rules::specs::End::end_done), using(tables::proofs::Bodies::bodies))]
pub fn served(t: AllTables, caller: TaskNumber, code: u16) -> Made
    requires { Admitted t caller }
    ensures { told result ≡ body_of (end_verdict t.tasks.places caller code) t (end_done (step_of t) caller code) }
{
    match end_verdict(t.tasks, caller, code) {
        Ok(()) => goes(Reply::Done, tables::ending::ended(t, caller, code)),
        Err(no) => stays(Err(no), t),
    }
}
