// The leading run of a name's queue, whose entries have control, as it is read from the front.
ghost use Rattle.std.specs.Prelude.{◌≡◌, ◌≤◌, map};
ghost use Rattle.kinds.specs.Limits.{most_entries, longest_list};
ghost use Rattle.names.specs.Pointers.{pointer, pointed_in};
ghost use Rattle.rules.specs.Names.{Ask};
ghost use Rattle.rules.specs.Control.{sole_owner};
ghost use Rattle.queue.specs.Queues.{entry_of, entries_in};
ghost use Rattle.queue.specs.Flagging.{flags_of};
ghost use Rattle.queue.specs.Leading.{lead_next};

use crate::Queue;
use crate::looks::{Flags, flagged};
use kinds::{NameOffset, PointedList, Slot, TaskNumber};

// Three flags and no enum: the definition `lead_next` and its laws speak of each alone.
#[derive(Clone, Copy)]
pub struct Lead {
    // No entry for the name was read so far.
    pub first: bool,
    // An entry that has control may follow.
    pub going: bool,
    // Every entry so far that has control is the task's.
    pub sole: bool,
}

// One more entry of the queue. Behind another, an exclusive one lacks control, and so do all after it.
fn read(s: Lead, x: Slot, t: TaskNumber, n: NameOffset) -> Lead
    ensures { result ≡ lead_next s t.0 (pointer n.0) (entry_of x) }
{
    if x.name != n {
        return s;
    }
    if !s.first & x.exclusive {
        return Lead {
            first: false,
            going: false,
            ..s
        };
    }
    Lead {
        first: false,
        going: !x.exclusive,
        sole: s.sole & (x.task == t),
    }
}

// Nobody but the task owns the name.
fn is_sole(used: &[Slot], t: TaskNumber, n: NameOffset) -> bool
    ensures { result ≡ sole_owner (map entry_of used.now) t.0 (pointer n.0) }
{
    let mut s = Lead {
        first: true,
        going: true,
        sole: true,
    };
    for x in used {
        if !s.going {
            break;
        }
        s = read(s, *x, t, n);
    }
    s.sole
}

// For each name: nobody but the caller owns it.
pub fn sole(q: Queue, caller: TaskNumber, l: PointedList) -> Flags
    requires { (q.count ≤ most_entries) × (l.count ≤ longest_list) }
    ensures { result ≡ flags_of (λ (a : Ask). sole_owner (entries_in q) caller.0 a.name) (pointed_in l) }
{
    let used = &q.slots[..q.count];
    flagged(
        &l.names[..l.count as usize],
        |w| is_sole(used, caller, w.name),
    )
}
