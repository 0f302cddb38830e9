// Who is stuck, a line for each: the task, the place of its earliest entry that one of another stuck task bars, and
// that task.
ghost use Rattle.std.specs.Prelude.{◌≡◌, ◌+◌, ◌<◌, ◌≤◌};
ghost use Rattle.lists.specs.Lists.{keep, numbers, gathered};
ghost use Rattle.kinds.specs.Limits.{highest_task, most_entries};
ghost use Rattle.rules.specs.Reports.{holds_up, first_stuck_at, stuck_item, itemised};
ghost use Rattle.queue.specs.Queues.{entry_of, entries_in};
ghost use Rattle.queue.specs.Marking.{mark_at};
ghost use Rattle.rings.specs.Listings.{most_bytes, stored_items, with_items, line_of};

use crate::listing::Listing;
use kinds::{Slot, TaskNumber};
use queue::{Marks, Queue};

// x, which stands ahead of e, is of another task that is marked, and bars it.
fn holds_up(on: &Marks, e: Slot, x: Slot) -> bool
    ensures { result ≡ holds_up (mark_at on.now) (entry_of e) (entry_of x) }
{
    x.task != e.task && on.tasks.get(x.task.0 as usize) == Some(&true) && queue::bars(x, e)
}

// The line of task t goes into the list, if the task is marked and has one.
fn push_line(l: &mut Listing, q: &Queue, on: &Marks, t: TaskNumber)
    requires { (q.now.count ≤ most_entries) × (t.0 ≤ highest_task) × (l.old.count + 3 ≤ most_bytes)
        × (l.old.items < most_entries) }
    ensures { l.new ≡ with_items stuck_item l.old (line_of (mark_at on.now) (entries_in q.now) t.0) }
{
    if !on.tasks[t.0 as usize] {
        return;
    }
    let slots = &q.slots[..q.count];
    for (i, e) in slots.iter().enumerate() {
        if e.task == t {
            if let Some(x) = slots[..i].iter().find(|x| holds_up(on, *e, **x)) {
                l.push(&[e.task.0, i as u8, x.task.0]);
                return;
            }
        }
    }
}

// The lines of the tasks that are marked, in ascending order.
pub(crate) fn stuck_list(q: &Queue, on: &Marks) -> Listing
    requires { q.now.count ≤ most_entries }
    ensures { result ≡ stored_items (itemised stuck_item (gathered (first_stuck_at (mark_at on.now) (entries_in q.now))
        (keep (mark_at on.now) (numbers 1 highest_task)))) }
{
    let mut l = Listing::empty();
    for t in TaskNumber::LOWEST..=TaskNumber::HIGHEST {
        push_line(&mut l, q, on, TaskNumber(t));
    }
    l
}
