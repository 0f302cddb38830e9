// Which task: the one to run, and the place for a new one.
ghost use Rattle.std.specs.Prelude.{◌≡◌, ◌<◌, ◌+◌, IfSome, option_map, unwrap_or};
ghost use Rattle.kinds.specs.Limits.{highest_task};
ghost use Rattle.rules.specs.Attach.{lowest_free};
ghost use Rattle.rules.specs.Dispatch.{dispatched as dispatched_of};
ghost use Rattle.tasks.specs.Highest.{raised_to, highest};

use crate::TaskTable;
use kinds::{Task, TaskNumber};

// The number of a place that was found, or 0: the rules' `lowest_free` and `dispatched` are numbers.
fn numbered(place: Option<usize>) -> TaskNumber
    requires { IfSome place (λ i. i < highest_task) }
    ensures { result.0 ≡ unwrap_or (option_map (λ i. i + 1) place) 0 }
{
    TaskNumber(place.map_or(0, |i| i as u8 + 1))
}

// The lowest free number, or 0.
pub fn lowest_free(f: TaskTable) -> TaskNumber
    ensures { result.0 ≡ lowest_free f.places }
{
    numbered(f.places.iter().position(|x| x.condition.is_free()))
}

// The higher of h and the dispatching priority of x, if x is ready.
#[tactic(auto, unfolding(crate::specs::Highest::raised_to, lists::specs::Pick::pick))]
fn raised(h: u8, x: Task) -> u8
    ensures { result ≡ raised_to h x }
{
    if x.condition.is_ready() {
        h.max(x.dispatching)
    } else {
        h
    }
}

// The highest dispatching priority of a ready task. The library's `filter` and `max` take half as long again.
fn highest_ready(f: &TaskTable) -> u8
    ensures { result ≡ highest 0 f.now.places }
{
    f.places.iter().fold(0, |h, x| raised(h, *x))
}

// The ready task of highest dispatching priority, the lowest number among equals, or 0 if none is ready.
pub fn dispatched(f: TaskTable) -> TaskNumber
    ensures { result.0 ≡ dispatched_of f.places }
{
    let h = highest_ready(&f);
    numbered(
        f.places
            .iter()
            .position(|x| x.condition.is_ready() && h <= x.dispatching),
    )
}
