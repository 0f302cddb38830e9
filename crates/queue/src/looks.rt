// What the queue says of each name beside a request, before anything changes.

ghost use Rattle.std.specs.Prelude.{◌≡◌, ◌≤◌, eqb, Bool, false, ◌&&◌, ◌||◌, map, length};
ghost use Rattle.std.specs.Fn.{FnReturnsAt};
ghost use Rattle.std.specs.List.{list_all, zip};
ghost use Rattle.lists.specs.Lists.{some};
ghost use Rattle.lists.specs.Tables.{padded};
ghost use Rattle.kinds.specs.Limits.{most_entries, longest_list};
ghost use Rattle.kinds.specs.declared.names.Slot.{Slot};
ghost use Rattle.names.specs.Pointers.{pointer, pointed_in};
ghost use Rattle.rules.specs.Names.{Ask};
ghost use Rattle.rules.specs.Control.{is_for, has_entry, available as available_in};
ghost use Rattle.queue.specs.Queues.{entry_of, entries_in};
ghost use Rattle.queue.specs.Flagging.{flags_of, all_set_but};

use crate::{Queue, none_bars};
use kinds::{NameList, NameOffset, Pointed, PointedList, Slot, TaskNumber};

// One flag for each name beside a request, false past the count.
#[derive(Clone, Copy)]
pub struct Flags {
    pub of: [bool; NameList::MOST],
}

// Each flag is set or skipped.
fn set_or_skipped(flags: &[bool], skip: &[bool]) -> bool
    ensures { result ≡ list_all (λ (p : Bool × Bool). p.1 || p.0) (zip flags.now skip.now) }
{
    flags.iter().zip(skip).all(|(b, s)| *s || *b)
}

// All of the first n flags are set, but for the places that are skipped.
pub fn all_set_but(f: Flags, skip: Flags, n: u32) -> bool
    requires { n ≤ longest_list }
    ensures { result ≡ all_set_but f skip n }
{
    set_or_skipped(&f.of[..n as usize], &skip.of)
}

// For each name, what is asked of it.
pub(crate) fn flagged<F: Fn(&Pointed) -> bool>(names: &[Pointed], ask: F) -> Flags
    requires few { length names.now ≤ longest_list }
    requires callable { F.IsAlwaysCallable ask }
    ensures { (f : Pointed → Bool) → ((w : Pointed) (b : Bool) → FnReturnsAt F.Fn ask w b → b ≡ f w)
        → result.of ≡ padded longest_list false (map f names.now) }
{
    let mut r = Flags {
        of: [false; NameList::MOST],
    };
    for (i, w) in names.iter().enumerate() {
        r.of[i] = ask(w);
    }
    r
}

// The entry is the task's, for that name.
fn is_for(x: Slot, t: TaskNumber, n: NameOffset) -> bool
    ensures { result ≡ is_for t.0 (pointer n.0) (entry_of x) }
{
    x.task == t && x.name == n
}

// Some of the entries is the task's, for that name.
fn has_entry(used: &[Slot], t: TaskNumber, n: NameOffset) -> bool
    ensures { result ≡ some (λ (x : Slot). is_for t.0 (pointer n.0) (entry_of x)) used.now }
{
    used.iter().any(|x| is_for(*x, t, n))
}

// The name is one of these.
fn is_one_of(n: NameOffset, names: &[Pointed]) -> bool
    ensures { result ≡ some (λ (w : Pointed). eqb n.0 w.name.0) names.now }
{
    names.iter().any(|w| n == w.name)
}

// The entry is the task's, for one of these names.
pub(crate) fn is_for_one(x: Slot, t: TaskNumber, names: &[Pointed]) -> bool
    ensures { result ≡ (eqb x.task.0 t.0 && some (λ (w : Pointed). eqb x.name.0 w.name.0) names.now) }
{
    x.task == t && is_one_of(x.name, names)
}

// For each name: the caller has an entry.
pub fn entered(q: Queue, caller: TaskNumber, l: PointedList) -> Flags
    requires { (q.count ≤ most_entries) × (l.count ≤ longest_list) }
    ensures { result ≡ flags_of (λ (a : Ask). has_entry (entries_in q) caller.0 a.name) (pointed_in l) }
{
    let used = &q.slots[..q.count];
    flagged(
        &l.names[..l.count as usize],
        |w| has_entry(used, caller, w.name),
    )
}

// For each name: a request for it would have control at once. It is tested as an entry at the tail would be.
pub fn available(q: Queue, l: PointedList) -> Flags
    requires { (q.count ≤ most_entries) × (l.count ≤ longest_list) }
    ensures { result ≡ flags_of (available_in (entries_in q)) (pointed_in l) }
{
    let used = &q.slots[..q.count];
    flagged(&l.names[..l.count as usize], |w| {
        let e = Slot {
            task: TaskNumber(0),
            exclusive: w.exclusive,
            name: w.name,
        };
        none_bars(used, e)
    })
}
