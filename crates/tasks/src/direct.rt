// Direct subtasks of a task: live, or ended and not detached.
ghost use Rattle.std.specs.Prelude.{◌≡◌};
ghost use Rattle.rules.specs.Family.{is_subtask_of, direct_subtask, has_subtasks};

use crate::TaskTable;
use kinds::{Task, TaskNumber};

// x is the place of a direct subtask of task n.
#[tactic(auto, unfolding(rules::specs::Family::is_subtask_of))]
pub(crate) fn is_subtask_of(x: Task, n: TaskNumber) -> bool
    ensures { result ≡ is_subtask_of n.0 x }
{
    crate::in_use(x) && x.mother == n
}

// Task n is a direct subtask of c.
pub fn is_subtask(f: TaskTable, c: TaskNumber, n: TaskNumber) -> bool
    ensures { result ≡ direct_subtask f.places c.0 n.0 }
{
    is_subtask_of(f.place(n), c)
}

// Task c still has subtasks.
pub fn has_subtasks(f: TaskTable, c: TaskNumber) -> bool
    ensures { result ≡ has_subtasks f.places c.0 }
{
    f.places.iter().any(|x| is_subtask_of(*x, c))
}
