// The reports of document 02 §1: who is stuck, and who stands in which queue.
ghost use Rattle.std.specs.Prelude.{◌≡◌, true, ◌≤◌, length};
ghost use Rattle.lists.specs.Lists.{every};
ghost use Rattle.kinds.specs.Limits.{most_entries};
ghost use Rattle.kinds.specs.Ranges.{task_good};
ghost use Rattle.rules.specs.Reports.{stuck_list, queues_list};
ghost use Rattle.queue.specs.Queues.{entries_in};
ghost use Rattle.rings.specs.Listings.{report_reply, report_written};

use crate::held::stuck_list;
use crate::listing::written;
use crate::standing::queues_list;
use kinds::Reply;
use queue::Queue;

// Every stuck task, with one entry of its and one stuck task that it waits for there.
pub fn stuck(q: Queue, area: &mut [u8]) -> Reply
    requires count_le_most_entries { q.count ≤ most_entries }
    requires q_value { every (λ e. task_good e.task) (entries_in q) ≡ true }
    ensures value { result ≡ report_reply (stuck_list (entries_in q)) (length area.old) }
    ensures area_after { area.new ≡ report_written (stuck_list (entries_in q)) area.old }
{
    let on = crate::stuck(&q);
    written(&stuck_list(&q, &on), area)
}

// Every entry, name by name, and whether it owns.
pub fn queues(q: Queue, area: &mut [u8]) -> Reply
    requires { q.count ≤ most_entries }
    ensures value { result ≡ report_reply (queues_list (entries_in q)) (length area.old) }
    ensures area_after { area.new ≡ report_written (queues_list (entries_in q)) area.old }
{
    written(&queues_list(&q), area)
}
