// ENQ.
ghost use Rattle.std.specs.Prelude.{◌≡◌, true, ◌≤◌, length};
ghost use Rattle.rules.specs.Enq.{enq_verdict, enq_done};
ghost use Rattle.tables.specs.Tables.{step_of, Admitted};
ghost use Rattle.tables.specs.Bodies.{told, body_of};
ghost use Rattle.kinds.specs.Limits.{lowest_task, highest_task, most_entries, longest_list};
ghost use Rattle.names.specs.Pointers.{pointed_in};
ghost use Rattle.rules.specs.Tests.{first_of};
ghost use Rattle.rules.specs.Enq.{enq_good};
ghost use Rattle.queue.specs.Queues.{entries_in, stored_entries, PackedEntries};
ghost use Rattle.tasks.specs.TaskTables.{task_table_of};
ghost use Rattle.resources.specs.Looking.{queues_by, fresh_names, few_free, enq_weighed, enq_found};
ghost use Rattle.resources.specs.Serving.{EnqTold, caller_waits, queue_left, tasks_left, enq_leaves};

use crate::codes::enq_codes_due;
use crate::looks::{Looks, asks_free, enq_looks, wants_entry};
use crate::{Found, asked, reply_to, unlooked, write_due};
use kinds::{Condition, Fault, No, PointedList, Refusal, Ret, Slot, TaskNumber};
use queue::Queue;
use queue::looks::{Flags, all_set_but, available};
use tables::AllTables;
use tables::made::{Made, goes, stays};
use tasks::TaskTable;

// Names are queued for, under USE only if every code is 0.
fn queues(ret: Ret, zero: bool) -> bool
    ensures { result ≡ queues_by ret zero }
{
    match ret {
        Ret::None | Ret::Have => true,
        Ret::Use => zero,
        Ret::Test | Ret::Chng => false,
    }
}

// How many of the first n names the caller has no entry for.
fn fresh_names(has: Flags, n: u32) -> usize
    requires { n ≤ longest_list }
    ensures { result ≡ fresh_names has n }
{
    has.of[..n as usize].iter().filter(|h| !**h).count()
}

// 105, tested after 201. Whatever queues, queues just the names that the caller has no entry for.
#[tactic(auto, unfolding(crate::specs::Looking::few_free), using(crate::proofs::Looked::fresh_few))]
fn too_few_free(ret: Ret, looks: Looks, count: usize, n: u32) -> bool
    requires { (n ≤ longest_list) × (count ≤ most_entries) }
    ensures { result ≡ few_free ret looks count n }
{
    let m = fresh_names(looks.has, n);
    queues(ret, looks.zero) && 0 < m && Slot::PLACES < count + m
}

// What the looks say: 201, 105. Under NONE, which gives no codes, one other than 0 is the error.
#[tactic(auto, unfolding(lists::specs::Pick::pick))]
fn enq_weighed(ret: Ret, looks: Looks, count: usize, n: u32) -> Result<(), No>
    requires { (n ≤ longest_list) × (count ≤ most_entries) }
    ensures { result ≡ first_of (enq_weighed ret looks count n) }
{
    if !enq_codes_due(ret) && !looks.zero {
        return Err(No::Fail(Fault::DuplicateEnq));
    }
    if too_few_free(ret, looks, count, n) {
        return Err(No::Refuse(Refusal::NoEntryFree));
    }
    Ok(())
}

// ENQ's tests of good names, 104, 201, 105: the queue is looked at where the request alone is not refused. 110 is not
// tested again: what stands for a name here is never a system name.
pub fn enq_found(q: Queue, caller: TaskNumber, ret: Ret, l: PointedList, room: usize) -> Found
    requires { (q.count ≤ most_entries) × (enq_good ret (pointed_in l) ≡ true) }
    ensures { result ≡ enq_found (entries_in q) caller ret (pointed_in l) room }
{
    let verdict = asked(enq_codes_due(ret), l, room);
    if verdict.is_err() {
        return unlooked(verdict);
    }
    let looks = enq_looks(q, caller, ret, l);
    Found {
        verdict: enq_weighed(ret, looks, q.count, l.count),
        looks,
    }
}

// The caller waits for one of the names that are queued for. USE has looked before, and queues only what is available.
#[tactic(auto, unfolding(crate::specs::Serving::caller_waits), using(crate::proofs::Looked::counted))]
fn waits(q: Queue, ret: Ret, l: PointedList, looks: Looks) -> bool
    requires { (q.count ≤ most_entries) × (l.count ≤ longest_list) }
    ensures { result ≡ caller_waits ret (entries_in q) (pointed_in l) looks }
{
    !asks_free(ret) && queues(ret, looks.zero) && !all_set_but(available(q, l), looks.has, l.count)
}

// What each RET kind makes of the queue, USE and CHNG only if every code is 0: the names stand at the tail, but for
// those that the caller has an entry for; under CHNG its entries for them are made exclusive.
#[tactic(auto, unfolding(crate::specs::Serving::queue_left), using(crate::proofs::Changes::tail))]
fn queue_left(q: Queue, caller: TaskNumber, ret: Ret, l: PointedList, looks: Looks) -> Queue
    requires { PackedEntries q × EnqTold ret (entries_in q) caller.0 (pointed_in l) looks }
    ensures { result ≡ stored_entries (queue_left ret (entries_in q) caller.0 (pointed_in l) looks.zero) }
{
    if queues(ret, looks.zero) {
        return queue::queuing::with_tail(q, caller, l, looks.has);
    }
    if wants_entry(ret) && looks.zero {
        return queue::queuing::made_exclusive(q, caller, l);
    }
    q
}

// And of the tasks: nobody but the caller begins to wait. Where it alone owns, CHNG changes nobody's control.
#[tactic(auto, unfolding(crate::specs::Serving::tasks_left, lists::specs::Pick::pick))]
fn tasks_left(f: TaskTable, caller: TaskNumber, waits: bool) -> TaskTable
    requires { (lowest_task ≤ caller.0) × (caller.0 ≤ highest_task) }
    ensures { result ≡ task_table_of (tasks_left f.places caller.0 waits) }
{
    if !waits {
        return f;
    }
    let x = tasks::at(f, caller).with_condition(Condition::ResourceWait);
    tasks::with_place(f, caller, x)
}

// ENQ, of names that are good: its tests; where they go on, codes are written where they are due, and the names queued
// for or made exclusive.
pub fn served(t: AllTables, caller: TaskNumber, ret: Ret, l: PointedList, codes: &mut [u8]) -> Made
    requires { Admitted t caller × (enq_good ret (pointed_in l) ≡ true) }
    ensures result_value { told result
        ≡ body_of (enq_verdict (entries_in t.queue) caller ret (pointed_in l) (length codes.old)) t
        (enq_done (step_of t) caller ret (pointed_in l)) }
    ensures codes_after { codes.new ≡ enq_leaves t.queue caller ret (pointed_in l) codes.old }
{
    let Found { verdict, looks } = enq_found(t.queue, caller, ret, l, codes.len());
    if verdict.is_err() {
        return stays(verdict, t);
    }
    write_due(enq_codes_due(ret), looks.codes, l, codes);
    let q = queue_left(t.queue, caller, ret, l, looks);
    let f = tasks_left(t.tasks, caller, waits(t.queue, ret, l, looks));
    goes(
        reply_to(looks.zero),
        tables::put_tasks(tables::put_queue(t, q), f),
    )
}
