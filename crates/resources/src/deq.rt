// DEQ.
ghost use Rattle.std.specs.Prelude.{◌≡◌, true, ◌≤◌, length};
ghost use Rattle.rules.specs.Deq.{deq_verdict, deq_done};
ghost use Rattle.tables.specs.Tables.{step_of, Admitted};
ghost use Rattle.tables.specs.Bodies.{told, body_of};
ghost use Rattle.kinds.specs.Limits.{most_entries};
ghost use Rattle.names.specs.Pointers.{pointed_in};
ghost use Rattle.rules.specs.Names.{names_good};
ghost use Rattle.rules.specs.Tests.{first_of};
ghost use Rattle.queue.specs.Queues.{entries_in};
ghost use Rattle.resources.specs.Looking.{deq_weighed, deq_found};
ghost use Rattle.resources.specs.Serving.{deq_leaves};

use crate::codes::deq_codes_due;
use crate::looks::deq_looks;
use crate::{Found, asked, reply_to, unlooked, write_due};
use kinds::{DeqRet, Fault, No, PointedList, TaskNumber};
use queue::Queue;
use tables::AllTables;
use tables::made::{Made, goes, stays};

// What the looks say: 202, by the codes as in ENQ.
#[tactic(auto, unfolding(lists::specs::Pick::pick))]
fn deq_weighed(ret: DeqRet, zero: bool) -> Result<(), No>
    ensures { result ≡ first_of (deq_weighed ret zero) }
{
    if !deq_codes_due(ret) && !zero {
        return Err(No::Fail(Fault::DeqWithoutEntry));
    }
    Ok(())
}

// DEQ's tests of good names, 104, 202: the queue is looked at where the request alone is not refused.
pub fn deq_found(q: Queue, caller: TaskNumber, ret: DeqRet, l: PointedList, room: usize) -> Found
    requires { (q.count ≤ most_entries) × (names_good (pointed_in l) ≡ true) }
    ensures { result ≡ deq_found (entries_in q) caller ret (pointed_in l) room }
{
    let verdict = asked(deq_codes_due(ret), l, room);
    if verdict.is_err() {
        return unlooked(verdict);
    }
    let looks = deq_looks(q, caller, l);
    Found {
        verdict: deq_weighed(ret, looks.zero),
        looks,
    }
}

// DEQ, of names that are good: its tests; where they go on, codes are written where they are due, the caller's entries
// for the names go, and whoever waited for them only is ready.
pub fn served(
    t: AllTables,
    caller: TaskNumber,
    ret: DeqRet,
    l: PointedList,
    codes: &mut [u8],
) -> Made
    requires { Admitted t caller × (names_good (pointed_in l) ≡ true) }
    ensures result_value { told result
        ≡ body_of (deq_verdict (entries_in t.queue) caller ret (pointed_in l) (length codes.old)) t
        (deq_done (step_of t) caller ret (pointed_in l)) }
    ensures codes_after { codes.new ≡ deq_leaves t.queue caller ret (pointed_in l) codes.old }
{
    let Found { verdict, looks } = deq_found(t.queue, caller, ret, l, codes.len());
    if verdict.is_err() {
        return stays(verdict, t);
    }
    write_due(deq_codes_due(ret), looks.codes, l, codes);
    let q = queue::releasing::release(t.queue, caller, l);
    let f = between::waking::wake(q, t.tasks);
    goes(
        reply_to(looks.zero),
        tables::put_tasks(tables::put_queue(t, q), f),
    )
}
