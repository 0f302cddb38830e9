// The change of the queue that DEQ makes.
ghost use Rattle.std.specs.Prelude.{◌≡◌, ◌≤◌};
ghost use Rattle.kinds.specs.Limits.{longest_list};
ghost use Rattle.rules.specs.Names.{names_of};
ghost use Rattle.rules.specs.Deq.{released};
ghost use Rattle.names.specs.Pointers.{pointed_in};
ghost use Rattle.queue.specs.Queues.{stored_entries, entries_in, PackedEntries};

use crate::looks::is_for_one;
use crate::{Queue, empty};
use kinds::{PointedList, TaskNumber};

// The caller's entries for these names go.
pub fn release(q: Queue, c: TaskNumber, l: PointedList) -> Queue
    requires { PackedEntries q × (l.count ≤ longest_list) }
    ensures { result ≡ stored_entries (released c.0 (names_of (pointed_in l)) (entries_in q)) }
{
    let names = &l.names[..l.count as usize];
    let mut r = empty();
    for x in &q.slots[..q.count] {
        if !is_for_one(*x, c, names) {
            r.push(*x);
        }
    }
    r
}
