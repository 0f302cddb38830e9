// The ending of tasks, on the task table alone. A task is freed before its subtasks are looked for, so that the calls
// come to an end on any table, rings of mothers included, and go no deeper than the family does.
ghost use Rattle.std.specs.Prelude.{◌≡◌};
ghost use Rattle.rules.specs.Family.{below};
ghost use Rattle.rules.specs.Ending.{end_tasks};
ghost use Rattle.laws.specs.Wiping.{wiped};
ghost use Rattle.tasks.specs.TaskTables.{task_table_of};
ghost use Rattle.tasks.specs.Under.{under};

use crate::TaskTable;
use kinds::{Task, TaskNumber};

// Frees task n and all below it. A number that no task in use has changes nothing.
#[cycle(end_subtasks_end_task)]
fn end_task(f: &mut TaskTable, n: TaskNumber)
    ensures { f.new ≡ task_table_of (wiped (below f.old.places n.0) f.old.places) }
{
    if crate::in_use(f.place(n)) {
        f.set(n, Task::free());
        end_subtasks(f, n);
    }
}

// Frees each direct subtask of n and all below it.
#[cycle(end_subtasks_end_task)]
fn end_subtasks(f: &mut TaskTable, n: TaskNumber)
    ensures { f.new ≡ task_table_of (wiped (under f.old.places n.0) f.old.places) }
{
    for k in 0..TaskNumber::HIGHEST {
        if crate::direct::is_subtask_of(f.places[k as usize], n) {
            end_task(f, TaskNumber(k + 1));
        }
    }
}

// Task c and all below it end, and c's place becomes `last`. A number that no task in use has changes nothing.
pub fn end_tasks(f: TaskTable, c: TaskNumber, last: Task) -> TaskTable
    ensures { result ≡ task_table_of (end_tasks f.places c.0 last) }
{
    let mut g = f;
    if crate::in_use(g.place(c)) {
        end_task(&mut g, c);
        g.set(c, last);
    }
    g
}
