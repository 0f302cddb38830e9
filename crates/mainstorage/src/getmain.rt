// GETMAIN: its tests, its search, and the area put in.
ghost use Rattle.std.specs.Prelude.{◌≡◌, true, ◌≤◌, leb, length};
ghost use Rattle.kinds.specs.Limits.{most_areas};
ghost use Rattle.rules.specs.Storage.{lowest};
ghost use Rattle.rules.specs.Getmain.{getmain_good, wanted, getmain_verdict, getmain_done};
ghost use Rattle.storage.specs.Stored.{areas_in, PackedAreas};
ghost use Rattle.mainstorage.specs.Found.{place_for, reply_at, put_at};
ghost use Rattle.tables.specs.Tables.{step_of, Packed};
ghost use Rattle.tables.specs.Bodies.{told, body_of};

use kinds::{Address, Area, Fault, No, Refusal, Reply, TaskNumber};
use storage::Storage;
use tables::AllTables;
use tables::made::{Made, goes, stays};

// The verdict on a request, and the place that the one search found for it.
#[derive(Clone, Copy)]
pub struct Found {
    pub verdict: Result<(), No>,
    pub place: Option<Address>,
}

// 101.
#[tactic(auto, unfolding(rules::specs::Getmain::getmain_good))]
fn getmain_good(bytes: u32, subpool: u8) -> bool
    ensures { result ≡ getmain_good bytes subpool }
{
    Area::length_good(bytes) && Area::subpool_good(subpool)
}

// 107.
#[tactic(auto, using(storage::proofs::Growing::length_live, lists::specs::Arrays::mapped_length))]
fn is_full(s: Storage) -> bool
    requires { s.count ≤ most_areas }
    ensures { result ≡ leb most_areas (length (areas_in s)) }
{
    Area::PLACES <= s.count
}

// The search.
#[tactic(auto, unfolding(rules::specs::Getmain::getmain_good))]
fn lowest_for(s: Storage, caller: TaskNumber, bytes: u32, subpool: u8) -> Option<Address>
    requires { (s.count ≤ most_areas) × (getmain_good bytes subpool ≡ true) }
    ensures { result ≡ lowest (areas_in s) (wanted bytes subpool caller.0) }
{
    crate::room::lowest(s, crate::asked::area_at(Address(0), bytes, subpool, caller))
}

fn getmain_found(
    s: Storage,
    caller: TaskNumber,
    bytes: u32,
    subpool: u8,
    conditional: bool,
) -> Found
    requires { s.count ≤ most_areas }
    ensures { (result.verdict ≡ getmain_verdict (areas_in s) caller bytes subpool conditional)
        × (result.place ≡ place_for (areas_in s) caller bytes subpool) }
{
    if !getmain_good(bytes, subpool) {
        return Found {
            verdict: Err(No::Refuse(Refusal::OutOfRange)),
            place: None,
        };
    }
    if is_full(s) {
        return Found {
            verdict: Err(No::Refuse(Refusal::NoAreaFree)),
            place: None,
        };
    }
    let place = lowest_for(s, caller, bytes, subpool);
    let verdict = if !conditional && place.is_none() {
        Err(No::Fail(Fault::NoStorage))
    } else {
        Ok(())
    };
    Found { verdict, place }
}

// The address that is answered, or 4.
fn reply_at(place: Option<Address>) -> Reply
    ensures { result ≡ reply_at place }
{
    place.map_or(Reply::Four, Reply::Got)
}

// The storage with the area asked for at the place found.
fn put(s: Storage, caller: TaskNumber, bytes: u32, subpool: u8, place: Option<Address>) -> Storage
    requires { PackedAreas s × (place ≡ place_for (areas_in s) caller bytes subpool) }
    ensures { result ≡ put_at place (wanted bytes subpool caller.0) s }
{
    match place {
        Some(at) => storage::insert(s, crate::asked::area_at(at, bytes, subpool, caller)),
        None => s,
    }
}

// GETMAIN's tests and its search; where there is room, the area stands at the lowest address, which is answered.
#[tactic(auto, using(tables::proofs::Bodies::bodies))]
pub fn served(t: AllTables, caller: TaskNumber, bytes: u32, subpool: u8, conditional: bool) -> Made
    requires { Packed t }
    ensures { told result ≡ body_of (getmain_verdict (areas_in t.storage) caller bytes subpool conditional) t
        (getmain_done (step_of t) caller bytes subpool) }
{
    let found = getmain_found(t.storage, caller, bytes, subpool, conditional);
    match found.verdict {
        Ok(()) => {
            let s = put(t.storage, caller, bytes, subpool, found.place);
            goes(reply_at(found.place), tables::put_storage(t, s))
        }
        Err(no) => stays(Err(no), t),
    }
}
