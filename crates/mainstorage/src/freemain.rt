// FREEMAIN: its tests, and the area taken away.
ghost use Rattle.std.specs.Prelude.{◌≡◌, true, ◌≤◌};
ghost use Rattle.lists.specs.Lists.{some};
ghost use Rattle.kinds.specs.Limits.{most_areas};
ghost use Rattle.rules.specs.Freemain.{is_named, freemain_good, freemain_verdict, freemain_done};
ghost use Rattle.storage.specs.Stored.{areas_in};
ghost use Rattle.tables.specs.Tables.{step_of, Packed};
ghost use Rattle.tables.specs.Bodies.{told, body_of};

use kinds::{Address, Area, Fault, No, Refusal, Reply, TaskNumber};
use storage::Storage;
use tables::AllTables;
use tables::made::{Made, goes, stays};

// 101.
#[tactic(auto, unfolding(rules::specs::Freemain::freemain_good))]
fn freemain_good(address: Address, bytes: u32, subpool: u8) -> bool
    ensures { result ≡ freemain_good address bytes subpool }
{
    address.is_good() && Area::length_good(bytes) && Area::subpool_good(subpool)
}

// One whole area of that owner is as the request names it.
#[tactic(auto, unfolding(rules::specs::Freemain::freemain_good))]
fn is_there(s: Storage, caller: TaskNumber, address: Address, bytes: u32, subpool: u8) -> bool
    requires { (s.count ≤ most_areas) × (freemain_good address bytes subpool ≡ true) }
    ensures { result ≡ some (is_named caller address bytes subpool) (areas_in s) }
{
    storage::has_area(s, crate::asked::area_at(address, bytes, subpool, caller))
}

// 101, then 206.
#[tactic(auto, unfolding(rules::specs::Freemain::freemain_verdict), using(laws::specs::Decided::judged))]
fn freemain_verdict(
    s: Storage,
    caller: TaskNumber,
    address: Address,
    bytes: u32,
    subpool: u8,
) -> Result<(), No>
    requires { s.count ≤ most_areas }
    ensures { result ≡ freemain_verdict (areas_in s) caller address bytes subpool }
{
    if !freemain_good(address, bytes, subpool) {
        return Err(No::Refuse(Refusal::OutOfRange));
    }
    if !is_there(s, caller, address, bytes, subpool) {
        return Err(No::Fail(Fault::NoSuchArea));
    }
    Ok(())
}

// FREEMAIN's tests; where they go on, the area goes, and its room is room.
#[tactic(auto, unfolding(rules::specs::Freemain::freemain_done), using(tables::proofs::Bodies::bodies))]
pub fn served(t: AllTables, caller: TaskNumber, address: Address, bytes: u32, subpool: u8) -> Made
    requires { Packed t }
    ensures { told result ≡ body_of (freemain_verdict (areas_in t.storage) caller address bytes subpool) t
        (freemain_done (step_of t) caller address bytes subpool) }
{
    match freemain_verdict(t.storage, caller, address, bytes, subpool) {
        Ok(()) => {
            let a = crate::asked::area_at(address, bytes, subpool, caller);
            goes(
                Reply::Done,
                tables::put_storage(t, storage::without(t.storage, a)),
            )
        }
        Err(no) => stays(Err(no), t),
    }
}
