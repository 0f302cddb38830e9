// Rings of tasks that wait for each other, and the reports of document 02 §1.
#![tactic(auto)]

mod held;
mod listing;
pub mod reports;
mod standing;
mod ways;

ghost use Rattle.std.specs.Prelude.{◌≡◌, true, ◌≤◌};
ghost use Rattle.lists.specs.Lists.{every};
ghost use Rattle.kinds.specs.Limits.{most_entries};
ghost use Rattle.kinds.specs.Ranges.{task_good};
ghost use Rattle.rules.specs.Rings.{stuck as stuck_of};
ghost use Rattle.queue.specs.Queues.{entries_in};
ghost use Rattle.queue.specs.Marking.{marked_by};

use queue::{Marks, Queue};
use std::array;

// The tasks that are on a ring: steps lead from each back to itself.
pub(crate) fn stuck(q: &Queue) -> Marks
    requires count_le_most_entries { q.now.count ≤ most_entries }
    requires q_value { every (λ e. task_good e.task) (entries_in q.now) ≡ true }
    ensures { result ≡ marked_by (stuck_of (entries_in q.now)) }
{
    let w = ways::closed(ways::steps(q));
    Marks {
        tasks: array::from_fn(|t| w.has(t, t)),
    }
}
