// The rules of sound tables that speak of the task table alone.
ghost use Rattle.std.specs.Prelude.{◌≡◌};
ghost use Rattle.lists.specs.Lists.{every};
ghost use Rattle.rules.specs.Attach.{maybe_good};
ghost use Rattle.rules.specs.SoundTasks.{has_ecb, tasks_fit, job_step_good, mothers_good, priorities_good};
ghost use Rattle.rules.specs.SoundTasks.{task_ecbs_good, ended_good, ended_tasks_good, zero_task, free_places_good};
ghost use Rattle.tasks.specs.Rows.{in_order};

use crate::TaskTable;
use kinds::{Condition, EcbNumber, Task, TaskNumber};

fn has_ecb(e: Option<EcbNumber>) -> bool
    ensures { result ≡ has_ecb e }
{
    e.is_some()
}

pub fn ecb_good(e: Option<EcbNumber>) -> bool
    ensures { result ≡ maybe_good e }
{
    e.is_none_or(|n| n.is_good())
}

fn ended_good(k: Condition, e: Option<EcbNumber>) -> bool
    ensures { result ≡ ended_good k e }
{
    !matches!(k, Condition::Ended) || has_ecb(e)
}

// The limit is in range, and dispatching is at most the limit.
fn order_good(x: &Task) -> bool
    ensures { result ≡ in_order x.now }
{
    Task::priority_good(x.limit as u16) && x.dispatching <= x.limit
}

// An unused place: every field is zero.
#[tactic(auto, unfolding(rules::specs::SoundTasks::zero_task))]
fn zero_task(x: &Task) -> bool
    ensures { result ≡ zero_task x.now }
{
    x.condition.is_free()
        && x.mother.0 == 0
        && x.limit == 0
        && x.dispatching == 0
        && !has_ecb(x.ecb)
}

// The array has as many places as there are task numbers, by its type.
#[tactic(auto, unfolding(rules::specs::SoundTasks::tasks_fit))]
pub fn tasks_fit(f: TaskTable) -> bool
    ensures { result ≡ tasks_fit f.places }
{
    true // by the array's type
}

// Task 1 is live, with no mother and no ECB.
#[tactic(auto, unfolding(rules::specs::SoundTasks::job_step_good, rules::specs::Family::mother))]
pub fn job_step_good(f: TaskTable) -> bool
    ensures { result ≡ job_step_good f.places }
{
    let x = f.place(TaskNumber(TaskNumber::LOWEST));
    x.condition.is_live() && x.mother.0 == 0 && !has_ecb(x.ecb)
}

// Every mother is live, and the chain reaches task 1. A chain is followed until it comes to a lower task: that one is
// known to reach task 1. On a ring the steps run out.
pub fn mothers_good(f: TaskTable) -> bool
    ensures { result ≡ mothers_good f.places }
{
    'tasks: for n in TaskNumber::LOWEST + 1..=TaskNumber::HIGHEST {
        let mut x = f.place(TaskNumber(n));
        if !crate::in_use(x) {
            continue;
        }
        for _ in 0..TaskNumber::HIGHEST {
            let m = x.mother;
            x = f.place(m);
            if !x.condition.is_live() {
                return false;
            }
            if m.0 < n {
                continue 'tasks;
            }
        }
        return false;
    }
    true
}

// Priorities are in range, and dispatching is at most limit.
#[tactic(auto, unfolding(rules::specs::SoundTasks::priorities_good))]
pub fn priorities_good(f: TaskTable) -> bool
    ensures { result ≡ priorities_good f.places }
{
    f.places.iter().all(order_good)
}

// The ECBs that tasks were attached with are in range.
#[tactic(auto, unfolding(rules::specs::SoundTasks::task_ecbs_good))]
pub fn task_ecbs_good(f: TaskTable) -> bool
    ensures { result ≡ task_ecbs_good f.places }
{
    f.places.iter().all(|x| ecb_good(x.ecb))
}

// An ended task has an ECB.
#[tactic(auto, unfolding(rules::specs::SoundTasks::ended_tasks_good))]
pub fn ended_tasks_good(f: TaskTable) -> bool
    ensures { result ≡ ended_tasks_good f.places }
{
    f.places.iter().all(|x| ended_good(x.condition, x.ecb))
}

// Unused places are zero.
#[tactic(auto, unfolding(rules::specs::SoundTasks::free_places_good))]
pub fn free_places_good(f: TaskTable) -> bool
    ensures { result ≡ free_places_good f.places }
{
    f.places.iter().all(|x| crate::in_use(*x) || zero_task(x))
}

// No place is in use, and each is zero.
pub fn all_zero(f: TaskTable) -> bool
    ensures { result ≡ every zero_task f.places }
{
    f.places.iter().all(zero_task)
}
