// The resource queue: entries in the order of request, packed.
#![tactic(auto)]

pub mod lead;
pub mod looks;
pub mod marks;
pub mod offsets;
pub mod queuing;
pub mod releasing;

ghost use Rattle.std.specs.Prelude.{◌≡◌, [], ◌+◌, ◌≤◌, ◌<◌, not, set};
ghost use Rattle.lists.specs.Lists.{every, some};
ghost use Rattle.kinds.specs.Limits.{most_entries};
ghost use Rattle.kinds.specs.declared.names.Slot.{Slot};
ghost use Rattle.rules.specs.Rings.{bars as bars_of};
ghost use Rattle.rules.specs.SoundQueue.{same_request, entries_once, entry_names_good, queue_fits};
ghost use Rattle.queue.specs.Queues.{entry_of, stored_entries, entries_in, is_zero, packed_entries};
ghost use Rattle.queue.specs.Marking.{marks_among};

use kinds::{NameOffset, Slot, TaskNumber};
use marks::marked;
pub use marks::{Marks, all_marks, no_marks};

// Any count and any places: demand 1 hands any tables to `sound` and `serve`, and the theorems on `packed`
// (docs/PROMISES) speak of a queue whose count is past its places. So no invariant holds the count, and whoever needs
// it requires it.
#[derive(Clone, Copy)]
pub struct Queue {
    pub slots: [Slot; Slot::PLACES],
    pub count: usize,
}

impl Queue {
    // One more entry, at the tail.
    pub(crate) fn push(&mut self, e: Slot)
        requires { self.old.count < most_entries }
        ensures { self.new ≡ record { slots = set self.old.slots self.old.count e; count = self.old.count + 1 } }
    {
        self.slots[self.count] = e;
        self.count += 1;
    }
}

// The queue with no entry.
pub fn empty() -> Queue
    ensures { result ≡ stored_entries [] }
{
    let e = Slot {
        task: TaskNumber(0),
        exclusive: false,
        name: NameOffset(0),
    };
    Queue {
        slots: [e; Slot::PLACES],
        count: 0,
    }
}

fn is_zero(s: Slot) -> bool
    ensures { result ≡ is_zero s }
{
    // `&`: `packed` takes many places at once
    (s.task == TaskNumber(0)) & (!s.exclusive & (s.name == NameOffset(0)))
}

// The queue keeps a list of entries, and nothing else stands in it: whatever is used keeps an entry, the rest is zero.
// The loop has no exit, so that the compiler takes many places at once.
pub fn packed(q: Queue) -> bool
    ensures { result ≡ packed_entries q }
{
    if Slot::PLACES < q.count {
        return false;
    }
    let mut zero = true;
    for x in &q.slots[q.count..] {
        zero &= is_zero(*x);
    }
    zero
}

// The array bounds the list, whatever the count.
pub fn queue_fits(q: Queue) -> bool
    ensures { result ≡ queue_fits (entries_in q) }
{
    true // by the array's length
}

// An earlier entry keeps a later one waiting: they are for one name, and not both shared.
pub fn bars(x: Slot, e: Slot) -> bool
    ensures { result ≡ bars_of (entry_of x) (entry_of e) }
{
    x.name == e.name && (x.exclusive || e.exclusive)
}

// None of those before an entry keeps it waiting.
pub(crate) fn none_bars(before: &[Slot], e: Slot) -> bool
    ensures { result ≡ every (λ (x : Slot). not (bars_of (entry_of x) (entry_of e))) before.now }
{
    before.iter().all(|x| !bars(*x, e))
}

// Two entries of one task for one name.
fn same_request(a: Slot, b: Slot) -> bool
    ensures { result ≡ same_request (entry_of a) (entry_of b) }
{
    b.task == a.task && b.name == a.name
}

// The entry's task has another for its name among the later ones.
fn is_again(x: Slot, later: &[Slot]) -> bool
    ensures { result ≡ some (λ (y : Slot). same_request (entry_of x) (entry_of y)) later.now }
{
    later.iter().any(|y| same_request(x, *y))
}

// No task has two entries for one name.
pub fn entries_once(q: Queue) -> bool
    requires { q.count ≤ most_entries }
    ensures { result ≡ entries_once (entries_in q) }
{
    let used = &q.slots[..q.count];
    for (i, x) in used.iter().enumerate() {
        if is_again(*x, &used[i + 1..]) {
            return false;
        }
    }
    true
}

// The rule holds of any offsets; what lies there is for the name area to test.
pub fn entry_names_good(q: Queue) -> bool
    ensures { result ≡ entry_names_good (entries_in q) }
{
    true // an offset stands for a lawful name
}

// Which of the tasks that are marked lack control: each of their entries is tested behind those before it, until one
// bars it. Whoever is found to lack control is not looked at again.
pub fn lacking(q: Queue, among: Marks) -> Marks
    requires { q.count ≤ most_entries }
    ensures { result ≡ marks_among among (entries_in q) }
{
    let used = &q.slots[..q.count];
    let mut found = no_marks();
    for (i, x) in used.iter().enumerate() {
        let t = x.task;
        if among.has(t) & !found.has(t) {
            found = marked(found, t, none_bars(&used[..i], *x));
        }
    }
    found
}
