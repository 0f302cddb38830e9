// What speaks of the tasks and one other table: whose entries, wait bits and areas they are.
#![tactic(auto)]

pub mod entries;
pub mod entries_ending;
pub mod owners;
mod staying;
pub mod waiters;
pub mod waiters_ending;
pub mod waking;

ghost use Rattle.std.specs.Prelude.{◌≡◌};
ghost use Rattle.rules.specs.Family.{place, live};

use kinds::{Task, TaskNumber};
use tasks::TaskTable;

// A task's place; a number that has no place counts as free. Loops read places by it: `tasks::at` takes the table by
// value, and would copy it in each turn.
fn place(f: &TaskTable, n: TaskNumber) -> Task
    ensures { result ≡ place f.now.places n.0 }
{
    if n.0 == 0 {
        return Task::free();
    }
    // `get`: behind a reference a proof does not know how long an array is
    f.places
        .get((n.0 - 1) as usize)
        .copied()
        .unwrap_or(Task::free())
}

fn is_live(f: &TaskTable, n: TaskNumber) -> bool
    ensures { result ≡ live f.now.places n.0 }
{
    place(f, n).condition.is_live()
}
