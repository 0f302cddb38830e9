// What an ending takes from the queue.
ghost use Rattle.std.specs.Prelude.{◌≡◌};
ghost use Rattle.lists.specs.Lists.{keep};
ghost use Rattle.rules.specs.Ending.{entry_stays};
ghost use Rattle.queue.specs.Queues.{entries_in, stored_entries, PackedEntries};

use crate::is_live;
use crate::staying::staying;
use queue::Queue;
use tasks::TaskTable;

// The queue without the entries of tasks that are not live.
pub fn entries_left(q: Queue, f: TaskTable) -> Queue
    requires { PackedEntries q }
    ensures { result ≡ stored_entries (keep (entry_stays f.places) (entries_in q)) }
{
    let mut r = queue::empty();
    r.count = staying(&q.slots[..q.count], &mut r.slots, |x| is_live(&f, x.task));
    r
}
