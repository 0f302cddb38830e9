// Ways from task to task.
ghost use Rattle.std.specs.Prelude.{◌≡◌, not, ◌&&◌, ◌||◌, ◌≤◌, eqb};
ghost use Rattle.kinds.specs.Limits.{highest_task, most_entries};
ghost use Rattle.rules.specs.Rings.{bars, waits_for, leads_by};
ghost use Rattle.queue.specs.Queues.{entry_of, entries_in};
ghost use Rattle.rings.specs.Ways.{way_at, ways_by, joined_by, leads_on, down, wide};

use kinds::Slot;
use queue::{Marks, Queue};
use std::array;

// For each two task numbers, 0 to the highest, whether a way leads from the first to the second. A row has those from
// one number. It is no array of arrays: the type of one does not tell a proof how long its rows are (`ways_whole`).
#[derive(Clone, Copy)]
pub struct Ways {
    pub of: [bool; Ways::PLACES],
}

impl Ways {
    pub const PLACES: usize = Marks::PLACES * Marks::PLACES;

    // A way leads from a to b.
    pub(crate) fn has(&self, a: usize, b: usize) -> bool
        requires { (a ≤ highest_task) × (b ≤ highest_task) }
        ensures { result ≡ way_at self.now a b }
    {
        self.of[a * Marks::PLACES + b]
    }
}

// There is a step from the task of e to the task of x, which stands before e: it is known, or x bars e.
fn stepped(known: bool, x: Slot, e: Slot) -> bool
    ensures { result ≡ (known || (not (eqb e.task.0 x.task.0) && bars (entry_of x) (entry_of e))) }
{
    known || e.task != x.task && queue::bars(x, e)
}

// One step: who waits for whom. A number that no task has is passed over.
pub(crate) fn steps(q: &Queue) -> Ways
    requires { q.now.count ≤ most_entries }
    ensures { result ≡ ways_by (waits_for (entries_in q.now)) }
{
    let mut r = Ways {
        of: [false; Ways::PLACES],
    };
    let slots = &q.slots[..q.count];
    for (i, e) in slots.iter().enumerate() {
        let a = e.task.0 as usize;
        for x in &slots[..i] {
            let b = x.task.0 as usize;
            if a < Marks::PLACES && b < Marks::PLACES {
                let at = a * Marks::PLACES + b;
                r.of[at] = stepped(r.of[at], *x, *e);
            }
        }
    }
    r
}

// A way leads on from k.
fn leads_on(m: &Ways, k: usize) -> bool
    requires { k ≤ highest_task }
    ensures { result ≡ leads_on m.now k }
{
    let row = k * Marks::PLACES;
    m.of[row..row + Marks::PLACES].iter().any(|way| *way)
}

// By way of k too. A task that waits for nobody adds no way, and most do not wait.
fn join(m: &mut Ways, k: usize)
    requires { k ≤ highest_task }
    ensures { m.new ≡ ways_by (joined_by m.old k) }
{
    if !leads_on(m, k) {
        return;
    }
    m.of = array::from_fn(|n| {
        let (a, b) = (n / Marks::PLACES, n % Marks::PLACES);
        m.has(a, b) | (m.has(a, k) & m.has(k, b))
    });
}

// By way of anybody.
pub(crate) fn closed(mut m: Ways) -> Ways
    ensures { result ≡ ways_by (leads_by (way_at m) (down wide)) }
{
    for k in 0..Marks::PLACES {
        join(&mut m, k);
    }
    m
}
