// What the queue says of each name beside a request, looked for once and only as far as the RET kind asks.
ghost use Rattle.std.specs.Prelude.{◌≡◌, ◌≤◌};
ghost use Rattle.kinds.specs.Limits.{most_entries, longest_list};
ghost use Rattle.names.specs.Pointers.{pointed_in};
ghost use Rattle.queue.specs.Queues.{entries_in};
ghost use Rattle.resources.specs.Coding.{wants_entry, asks_free, all_clear, clear_for};
ghost use Rattle.resources.specs.Looking.{told_by, enq_looks, deq_looks};

use crate::codes::{Codes, code};
use kinds::{NameList, PointedList, Ret, TaskNumber};
use queue::Queue;
use queue::lead::sole;
use queue::looks::{Flags, available, entered};

#[derive(Clone, Copy)]
pub struct Looks {
    // The caller has an entry.
    pub has: Flags,
    // Under NONE too, where none is written: 201 and 202 are told by them.
    pub codes: Codes,
    // Every code is 0.
    pub zero: bool,
}

// Nobody is in the way of any name.
fn all_clear() -> Flags
    ensures { result ≡ all_clear }
{
    Flags {
        of: [true; NameList::MOST],
    }
}

// CHNG is for names that the caller has an entry for, each other ENQ for names that it has none for.
pub(crate) fn wants_entry(ret: Ret) -> bool
    ensures { result ≡ wants_entry ret }
{
    matches!(ret, Ret::Chng)
}

// The codes of TEST and USE say whether a name is available.
pub(crate) fn asks_free(ret: Ret) -> bool
    ensures { result ≡ asks_free ret }
{
    matches!(ret, Ret::Test | Ret::Use)
}

// Nobody else is in the way of a name: TEST and USE ask whether it is available, CHNG whether the caller alone owns it.
// The codes of NONE and HAVE do not ask. Whether these wait is looked for only where they go on.
#[tactic(auto, unfolding(crate::specs::Coding::clear_for, lists::specs::Pick::pick))]
fn clear_for(q: Queue, caller: TaskNumber, ret: Ret, l: PointedList) -> Flags
    requires { (q.count ≤ most_entries) × (l.count ≤ longest_list) }
    ensures { result ≡ clear_for ret (entries_in q) caller.0 (pointed_in l) }
{
    if asks_free(ret) {
        return available(q, l);
    }
    if wants_entry(ret) {
        return sole(q, caller, l);
    }
    all_clear()
}

// The codes of n names by their flags; `wanted` says whether the caller is to have an entry for them.
fn told(has: Flags, wanted: bool, clear: Flags, n: u32) -> Looks
    requires { n ≤ longest_list }
    ensures { result ≡ told_by has wanted clear n }
{
    let mut codes = Codes {
        bytes: [0; NameList::MOST],
    };
    let mut zero = true;
    // By place: a chain over three arrays beside each other, one of them written, is no plainer.
    for i in 0..n as usize {
        let k = code(has.of[i], wanted, clear.of[i]);
        codes.bytes[i] = k;
        zero &= k == 0;
    }
    Looks { has, codes, zero }
}

// Before ENQ.
#[tactic(auto, using(crate::proofs::Looked::enq_looks_are, lists::specs::Arrays::mapped_length))]
pub fn enq_looks(q: Queue, caller: TaskNumber, ret: Ret, l: PointedList) -> Looks
    requires { (q.count ≤ most_entries) × (l.count ≤ longest_list) }
    ensures { result ≡ enq_looks ret (entries_in q) caller.0 (pointed_in l) }
{
    let clear = clear_for(q, caller, ret, l);
    told(entered(q, caller, l), wants_entry(ret), clear, l.count)
}

// Before DEQ, of either RET kind.
#[tactic(auto, using(crate::proofs::Looked::deq_looks_are, lists::specs::Arrays::mapped_length))]
pub fn deq_looks(q: Queue, caller: TaskNumber, l: PointedList) -> Looks
    requires { (q.count ≤ most_entries) × (l.count ≤ longest_list) }
    ensures { result ≡ deq_looks (entries_in q) caller.0 (pointed_in l) }
{
    told(entered(q, caller, l), true, all_clear(), l.count)
}
