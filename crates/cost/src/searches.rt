// GETMAIN's body, its search, and the search of every multiple of 8, each made over and over, without a sound test.
ghost use Rattle.std.specs.Prelude.{◌≡◌, true, ◌≤◌, ◌&&◌};
ghost use Rattle.kinds.specs.Limits.{region, doubleword};
ghost use Rattle.kinds.specs.Ranges.{length_good};
ghost use Rattle.queue.specs.Queues.{packed_entries};
ghost use Rattle.storage.specs.Stored.{packed_areas};
ghost use Rattle.cost.specs.Searches.{Searched};

use crate::every;
use crate::layouts::ASKED;
use crate::numbers::task;
use kinds::{Address, Area, Reply};
use tables::AllTables;

// How many calls found an address, and what the last one found.
#[derive(Clone, Copy)]
pub(crate) struct Answers {
    pub(crate) found: u32,
    pub(crate) last: Option<Address>,
}

// The address answered, if x, one of the areas afterwards, can be one.
fn place_in(reply: Reply, x: Area) -> Option<Address> {
    match reply {
        Reply::Got(a) if x.size <= Address::REGION => Some(a),
        _ => None,
    }
}

// Of the storage too something is looked at, at another place each time, so that all of it is made.
pub(crate) fn by_body(t: &AllTables, turn: u32, bytes: u32) -> Option<Address>
    requires { Searched t.now bytes }
{
    let made = mainstorage::getmain::served(*t, task(1), bytes, ASKED, true);
    place_in(
        made.reply,
        made.tables.storage.areas[turn as usize % Area::PLACES],
    )
}

fn wanted(bytes: u32) -> Area
    requires { length_good bytes ≡ true }
{
    mainstorage::asked::area_at(Address(0), bytes, ASKED, task(1))
}

pub(crate) fn by_lowest(t: &AllTables, _turn: u32, bytes: u32) -> Option<Address>
    requires { Searched t.now bytes }
{
    mainstorage::room::lowest(t.storage, wanted(bytes))
}

pub(crate) fn by_every(t: &AllTables, _turn: u32, bytes: u32) -> Option<Address>
    requires { Searched t.now bytes }
{
    every::every_multiple(t.storage, wanted(bytes))
}

fn packed(t: &AllTables) -> bool
    ensures { result ≡ (packed_entries t.now.queue && packed_areas t.now.storage) }
{
    queue::packed(t.queue) && storage::packed(t.storage)
}

// n searches for `most` bytes or for up to 7 less by turns, which are rounded up to as many: what is asked for is made
// anew each time, so that one search can't serve for all.
pub(crate) fn repeated<F: Fn(&AllTables, u32, u32) -> Option<Address>>(
    search: F,
    n: u32,
    t: &AllTables,
    most: u32,
) -> Answers
    requires sizes { (doubleword ≤ most) × (most ≤ region) }
    requires calls { (t : _) (turn bytes : _) → Searched t.now bytes → F.pre search t turn bytes }
{
    let mut found = 0;
    let mut last = None;
    if packed(t) {
        for i in 0..n {
            last = search(t, i, most - i % Address::DOUBLEWORD);
            found += u32::from(last.is_some());
        }
    }
    Answers { found, last }
}
