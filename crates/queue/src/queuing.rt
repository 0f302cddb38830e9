// The changes of the queue that ENQ makes.
ghost use Rattle.std.specs.Prelude.{◌≡◌, map, ◌+◌, ◌≤◌, length};
ghost use Rattle.lists.specs.Lists.{unskipped};
ghost use Rattle.kinds.specs.Limits.{most_entries, longest_list};
ghost use Rattle.rules.specs.Names.{names_of};
ghost use Rattle.rules.specs.Enq.{with_tail, made_exclusive};
ghost use Rattle.names.specs.Pointers.{pointed_in};
ghost use Rattle.queue.specs.Queues.{stored_entries, entries_in, PackedEntries};

use crate::Queue;
use crate::looks::{Flags, is_for_one};
use kinds::{PointedList, Slot, TaskNumber};

// New entries go to the tail, in list order, but for the names that are skipped.
pub fn with_tail(q: Queue, c: TaskNumber, l: PointedList, skip: Flags) -> Queue
    requires { PackedEntries q × (l.count ≤ longest_list)
        × (q.count + length (unskipped skip.of (pointed_in l).asks) ≤ most_entries) }
    ensures { result ≡ stored_entries (with_tail (entries_in q) c.0 (unskipped skip.of (pointed_in l).asks)) }
{
    let mut r = q;
    for (i, w) in l.names[..l.count as usize].iter().enumerate() {
        if !skip.of[i] {
            r.push(Slot {
                task: c,
                exclusive: w.exclusive,
                name: w.name,
            });
        }
    }
    r
}

// CHNG, in place: the caller's entries for these names become exclusive.
pub fn made_exclusive(q: Queue, c: TaskNumber, l: PointedList) -> Queue
    requires { PackedEntries q × (l.count ≤ longest_list) }
    ensures { result ≡ stored_entries (map (made_exclusive c.0 (names_of (pointed_in l))) (entries_in q)) }
{
    let names = &l.names[..l.count as usize];
    let mut r = q;
    for (i, x) in q.slots[..q.count].iter().enumerate() {
        r.slots[i].exclusive |= is_for_one(*x, c, names);
    }
    r
}
