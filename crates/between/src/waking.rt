// Waking: once entries have left the queue, whoever waited for them only is ready.
ghost use Rattle.std.specs.Prelude.{◌≡◌, ◌≤◌};
ghost use Rattle.kinds.specs.Limits.{most_entries};
ghost use Rattle.laws.specs.Waking.{wake_by};
ghost use Rattle.queue.specs.Queues.{entries_in};
ghost use Rattle.tasks.specs.TaskTables.{task_table_of};
ghost use Rattle.between.specs.Waiting.{wait_marks, wake_if};

use kinds::{Condition, Task};
use queue::{Marks, Queue};
use tasks::TaskTable;

// The tasks in a resource wait are marked.
fn waiting(f: TaskTable) -> Marks
    ensures { result ≡ wait_marks f.places }
{
    let mut m = queue::no_marks();
    for (i, x) in f.places.iter().enumerate() {
        m.tasks[i + 1] = x.condition.in_resource_wait();
    }
    m
}

// The task is ready, if it is in a resource wait and lacks nothing.
fn woken(x: Task, lacks: bool) -> Task
    ensures { result ≡ wake_if lacks x }
{
    if x.condition.in_resource_wait() && !lacks {
        return x.with_condition(Condition::Ready);
    }
    x
}

// Whoever is in a resource wait and lacks nothing is ready. Only the entries of those who wait are looked at.
pub fn wake(q: Queue, f: TaskTable) -> TaskTable
    requires { q.count ≤ most_entries }
    ensures { result ≡ task_table_of (wake_by (entries_in q) f.places) }
{
    let lacking = queue::lacking(q, waiting(f));
    let mut g = f;
    for (i, x) in g.places.iter_mut().enumerate() {
        *x = woken(*x, lacking.tasks[i + 1]);
    }
    g
}
