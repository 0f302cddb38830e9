// Endings, over all tables: the one ending, and how a task ends with a code.
ghost use Rattle.std.specs.Prelude.{◌≡◌, false, ◌≤◌};
ghost use Rattle.kinds.specs.Limits.{highest_ecb};
ghost use Rattle.kinds.specs.Tasks.{is_live, with_condition};
ghost use Rattle.kinds.specs.declared.tasks.Condition.TheVariants.{Ended};
ghost use Rattle.rules.specs.Events.{posted};
ghost use Rattle.rules.specs.Ending.{ended as ended_of};
ghost use Rattle.laws.specs.Running.{Running};
ghost use Rattle.tables.specs.Tables.{step_of, tables_of, Packed, Admitted};
ghost use Rattle.tables.specs.Endings.{left_with};

use crate::AllTables;
use kinds::{Condition, EcbNumber, Task, TaskNumber};

// The one ending. Task n and all below it end: n's place becomes `last`, and what belonged to those who are live
// no more goes with them.
pub fn without(t: AllTables, n: TaskNumber, last: Task) -> AllTables
    requires { Packed t × (Running (step_of t) × (is_live last.condition ≡ false)) }
    ensures { result ≡ tables_of (left_with t n last) }
{
    let left = tasks::ending::end_tasks(t.tasks, n, last);
    let entries = between::entries_ending::entries_left(t.queue, left);
    AllTables {
        tasks: between::waking::wake(entries, left),
        queue: entries,
        ecbs: between::waiters_ending::wait_bits_left(t.ecbs, left),
        storage: between::owners::areas_left(t.storage, left),
        ..t
    }
}

// Task c, whose place is x, ends: the place is kept as ended, and the ECB that it was attached with is posted.
#[tactic(auto, unfolding(between::specs::Posts::signals_of))]
fn kept_as_ended(t: AllTables, c: TaskNumber, x: Task, ecb: EcbNumber, code: u16) -> AllTables
    requires { Packed t × (Running (step_of t) × (ecb.0 ≤ highest_ecb)) }
    ensures { result ≡ tables_of (posted (left_with t c (with_condition x Ended)) ecb.0 code) }
{
    let left = without(t, c, x.with_condition(Condition::Ended));
    let posted = between::waiters::post(left.ecbs, left.tasks, ecb, u32::from(code));
    AllTables {
        tasks: posted.tasks,
        ecbs: posted.ecbs,
        ..left
    }
}

// Task c ends with this code and all below it: its ECB, if it was attached with one, is posted, and no other.
#[tactic(auto, unfolding(rules::specs::Ending::ended, lists::specs::Pick::pick), using(crate::proofs::Admits::admits))]
pub fn ended(t: AllTables, c: TaskNumber, code: u16) -> AllTables
    requires { Admitted t c }
    ensures { result ≡ tables_of (ended_of (step_of t) c.0 code) }
{
    if c.0 == TaskNumber::LOWEST {
        return crate::over_with(code);
    }
    let x = tasks::at(t.tasks, c);
    match x.ecb {
        None => without(t, c, Task::free()),
        Some(ecb) => kept_as_ended(t, c, x, ecb, code),
    }
}
