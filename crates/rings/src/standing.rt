// Who stands in which queue: name by name in the order of first entries, the entries for it in the order of request.
ghost use Rattle.std.specs.Prelude.{◌≡◌, ◌+◌, ◌*◌, ◌≤◌, length, map};
ghost use Rattle.lists.specs.Lists.{some};
ghost use Rattle.kinds.specs.Limits.{most_entries};
ghost use Rattle.names.specs.Pointers.{pointer};
ghost use Rattle.rules.specs.Names.{same_name};
ghost use Rattle.rules.specs.Control.{control};
ghost use Rattle.rules.specs.Reports.{queue_item, queues_list};
ghost use Rattle.queue.specs.Queues.{entry_of, entries_in};
ghost use Rattle.rings.specs.Listings.{most_bytes, stored_items, with_items};
ghost use Rattle.rings.specs.Standings.{entry_names, queue_from};

use crate::listing::Listing;
use kinds::{NameOffset, Slot};
use queue::Queue;

// An entry has control behind these: none of them bars it.
fn owns(before: &[Slot], x: Slot) -> bool
    ensures { result ≡ control (map entry_of before.now) (entry_of x) }
{
    before.iter().all(|y| !queue::bars(*y, x))
}

// One of these entries is for the name.
fn one_named(entries: &[Slot], n: NameOffset) -> bool
    ensures { result ≡ some (same_name (pointer n.0)) (entry_names (map entry_of entries.now)) }
{
    entries.iter().any(|y| y.name == n)
}

// The entries for the name from place i on go into the list: where each stands, and whether it owns.
fn push_queue(l: &mut Listing, q: &Queue, i: usize, n: NameOffset)
    requires count_le_most_entries { q.now.count ≤ most_entries }
    requires n_bound { l.old.count + 2 * length (queue_from q.now i n) ≤ most_bytes }
    requires n_bound_2 { l.old.items + length (queue_from q.now i n) ≤ most_entries }
    ensures { l.new ≡ with_items queue_item l.old (queue_from q.now i n) }
{
    let slots = &q.slots[..q.count];
    // j is a place that goes into the list, the end of those before it and the index
    for j in i..slots.len() {
        if slots[j].name == n {
            let owner = owns(&slots[..j], slots[j]);
            l.push(&[j as u8, owner as u8]);
        }
    }
}

// A name's queue goes into the list where its first entry stands.
pub(crate) fn queues_list(q: &Queue) -> Listing
    requires { q.now.count ≤ most_entries }
    ensures { result ≡ stored_items (queues_list (entries_in q.now)) }
{
    let mut l = Listing::empty();
    let slots = &q.slots[..q.count];
    for (i, x) in slots.iter().enumerate() {
        if !one_named(&slots[..i], x.name) {
            push_queue(&mut l, q, i, x.name);
        }
    }
    l
}
