// Where the names of the entries lie: for the name area, which says what lies there.
ghost use Rattle.std.specs.Prelude.{◌≡◌, ◌≤◌, take, length, eqb};
ghost use Rattle.std.specs.List.{list_all, zip};
ghost use Rattle.lists.specs.Lists.{same_bytes};
ghost use Rattle.kinds.specs.Limits.{most_entries};
ghost use Rattle.kinds.specs.declared.names.Slot.{Slot};
ghost use Rattle.queue.specs.Queues.{stored_entries, entries_in, PackedEntries};
ghost use Rattle.queue.specs.Pointing.{offsets_at, offsets_in, pointed_by};

use crate::Queue;
use kinds::{NameOffset, Slot};

#[derive(Clone, Copy)]
pub struct Offsets {
    pub of: [u16; Slot::PLACES],
}

// Where the names of the entries lie, place by place.
pub fn offsets_of(q: Queue) -> Offsets
    ensures { result ≡ offsets_at q }
{
    let mut r = Offsets {
        of: [0; Slot::PLACES],
    };
    // the library's `map` of an array takes forty times as long
    for (i, x) in q.slots.iter().enumerate() {
        r.of[i] = x.name.0;
    }
    r
}

// Two slots at each place are for one name.
fn same_names(a: &[Slot], b: &[Slot]) -> bool
    requires { length a.now ≡ length b.now }
    ensures { result ≡ list_all (λ (p : Slot × Slot). eqb p.0.name.0 p.1.name.0) (zip a.now b.now) }
{
    a.iter().zip(b).all(|(x, y)| x.name == y.name)
}

// Two queues point to the same names, entry by entry.
pub fn same_offsets(a: Queue, b: Queue) -> bool
    requires { (a.count ≤ most_entries) × (b.count ≤ most_entries) }
    ensures { result ≡ same_bytes (offsets_in a) (offsets_in b) }
{
    a.count == b.count && same_names(&a.slots[..a.count], &b.slots[..b.count])
}

// The entries point to other places.
pub fn with_offsets(q: Queue, to: Offsets) -> Queue
    requires { PackedEntries q }
    ensures { result ≡ stored_entries (pointed_by (take q.count to.of) (entries_in q)) }
{
    let mut r = q;
    for (i, o) in to.of[..q.count].iter().enumerate() {
        r.slots[i].name = NameOffset(*o);
    }
    r
}
