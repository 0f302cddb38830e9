// The task table: task n stands at place n - 1.
#![tactic(auto)]

pub mod choice;
pub mod direct;
pub mod ending;
pub mod sound;

ghost use Rattle.std.specs.Prelude.{◌≡◌, ◌≤◌};
ghost use Rattle.kinds.specs.Limits.{lowest_task, highest_task};
ghost use Rattle.rules.specs.Family.{place, live, with_place};
ghost use Rattle.laws.specs.Wiping.{in_use};
ghost use Rattle.tasks.specs.TaskTables.{task_table_of, nobody};

use kinds::{Task, TaskNumber};

#[derive(Clone, Copy)]
pub struct TaskTable {
    pub places: [Task; TaskNumber::PLACES],
}

impl TaskTable {
    // A task's place; a number that has no place counts as free.
    fn place(&self, n: TaskNumber) -> Task
        ensures { result ≡ place self.now.places n.0 }
    {
        if n.is_good() {
            self.places[(n.0 - TaskNumber::LOWEST) as usize]
        } else {
            Task::free()
        }
    }

    // x comes to stand at place n.
    fn set(&mut self, n: TaskNumber, x: Task)
        requires { (lowest_task ≤ n.0) × (n.0 ≤ highest_task) }
        ensures { self.new ≡ task_table_of (with_place self.old.places n.0 x) }
    {
        self.places[(n.0 - TaskNumber::LOWEST) as usize] = x;
    }
}

// No task.
pub fn empty() -> TaskTable
    ensures { result ≡ task_table_of nobody }
{
    TaskTable {
        places: [Task::free(); TaskNumber::PLACES],
    }
}

// A task's place; a number that has no place counts as free.
pub fn at(f: TaskTable, n: TaskNumber) -> Task
    ensures { result ≡ place f.places n.0 }
{
    f.place(n)
}

pub fn is_live(f: TaskTable, n: TaskNumber) -> bool
    ensures { result ≡ live f.places n.0 }
{
    f.place(n).condition.is_live()
}

// x is the place of a task that is live, or ended and not detached.
pub fn in_use(x: Task) -> bool
    ensures { result ≡ in_use x }
{
    !x.condition.is_free()
}

// The task table with x at place n.
pub fn with_place(f: TaskTable, n: TaskNumber, x: Task) -> TaskTable
    requires { (lowest_task ≤ n.0) × (n.0 ≤ highest_task) }
    ensures { result ≡ task_table_of (with_place f.places n.0 x) }
{
    let mut g = f;
    g.set(n, x);
    g
}
