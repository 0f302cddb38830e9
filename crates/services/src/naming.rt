// The names that a request leaves in use.
ghost use Rattle.std.specs.Prelude.{◌≡◌, true, ◌+◌, ◌≤◌, length};
ghost use Rattle.lists.specs.Lists.{every};
ghost use Rattle.kinds.specs.Limits.{longest_list, name_area};
ghost use Rattle.rules.specs.Names.{legal, names_of};
ghost use Rattle.names.specs.Named.{names_in};
ghost use Rattle.namearea.specs.Spelling.{spelling};
ghost use Rattle.namearea.specs.Pointing.{new_names};
ghost use Rattle.namearea.specs.Packing.{Clear};
ghost use Rattle.queue.specs.Queues.{PackedEntries};
ghost use Rattle.queue.specs.Pointing.{offsets_in};
ghost use Rattle.services.specs.Naming.{Left, repacked, joined_by};

use crate::Tables;
use kinds::NameList;
use namearea::NameArea;
use namearea::points::Points;
use queue::Queue;
use queue::offsets::{Offsets, offsets_of, same_offsets, with_offsets};
use tables::AllTables;

// The names that entries still show, packed anew in the order of first entries.
fn packed_anew(t: AllTables, old: NameArea) -> Tables
    requires { PackedEntries t.queue × Clear name_area old.bytes (offsets_in t.queue) }
    ensures { result ≡ repacked t old }
{
    let at = offsets_of(t.queue);
    let n = t.queue.count;
    let mut to = at.of;
    let mut names = NameArea::empty();
    namearea::repack(&at.of[..n], &old.bytes, &mut to[..n], &mut names.bytes);
    Tables {
        all: tables::put_queue(t, with_offsets(t.queue, Offsets { of: to })),
        names,
    }
}

// Where every entry points to the name that it pointed to, the area stays; else some have left.
pub(crate) fn left(before: Queue, t: AllTables, names: NameArea) -> Tables
    requires { Left before t.queue names }
    ensures { result ≡ repacked t names }
{
    if same_offsets(before, t.queue) {
        return Tables { all: t, names };
    }
    packed_anew(t, names)
}

// New entries are at the tail: the names that are new stand behind those that were in use.
#[tactic(auto, unfolding(crate::specs::Naming::joined_by))]
pub(crate) fn joined(t: AllTables, mut names: NameArea, l: NameList, p: Points) -> Tables
    requires { (every legal (names_of (names_in l)) ≡ true) × (l.count ≤ longest_list)
        × (p.from + length (spelling (new_names p l)) ≤ name_area) }
    ensures { result ≡ joined_by t names l p }
{
    namearea::append::append(&mut names.bytes, l, p);
    Tables { all: t, names }
}
