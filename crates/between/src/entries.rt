// What the queue and the task table have to say of each other.

ghost use Rattle.std.specs.Prelude.{◌≡◌, ◌≤◌};
ghost use Rattle.lists.specs.Lists.{alike};
ghost use Rattle.kinds.specs.Limits.{most_entries};
ghost use Rattle.kinds.specs.Tasks.{in_resource_wait};
ghost use Rattle.rules.specs.SoundQueue.{entries_live, waits_good};
ghost use Rattle.queue.specs.Queues.{entries_in};

use crate::is_live;
use kinds::Task;
use queue::Queue;
use tasks::TaskTable;

// Each entry is of a live task.
pub fn entries_live(q: Queue, f: TaskTable) -> bool
    requires { q.count ≤ most_entries }
    ensures { result ≡ entries_live f.places (entries_in q) }
{
    q.slots[..q.count].iter().all(|x| is_live(&f, x.task))
}

// The task is in a resource wait exactly when it lacks control.
fn wait_good(x: Task, lacks: bool) -> bool
    ensures { result ≡ alike (in_resource_wait x.condition) lacks }
{
    x.condition.in_resource_wait() == lacks
}

// A task is in a resource wait exactly when an entry of its lacks control.
pub fn waits_good(q: Queue, f: TaskTable) -> bool
    requires { q.count ≤ most_entries }
    ensures { result ≡ waits_good (entries_in q) f.places }
{
    let lacking = queue::lacking(q, queue::all_marks());
    f.places
        .iter()
        .zip(&lacking.tasks[1..])
        .all(|(x, lacks)| wait_good(*x, *lacks))
}
