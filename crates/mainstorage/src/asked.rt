// The area that a request for storage names.
ghost use Rattle.std.specs.Prelude.{◌≡◌, true};
ghost use Rattle.kinds.specs.Ranges.{length_good};
ghost use Rattle.rules.specs.Storage.{rounded as rounded_of, owner_in, area_at};

use kinds::{Address, Area, TaskNumber};

// Rounded up to a doubleword. A length in range leaves room for the sum.
#[tactic(auto, using(laws::specs::Rooms::length_range), unfolding(rules::specs::Storage::rounded))]
fn rounded(bytes: u32) -> u32
    requires { length_good bytes ≡ true }
    ensures { result ≡ rounded_of bytes }
{
    bytes.next_multiple_of(Address::DOUBLEWORD)
}

// Subpool 0 is the step's, any other the caller's.
#[tactic(auto, unfolding(rules::specs::Storage::owner_in, lists::specs::Pick::pick))]
fn owner_in(subpool: u8, caller: TaskNumber) -> TaskNumber
    ensures { result.0 ≡ owner_in subpool caller.0 }
{
    if subpool == 0 { TaskNumber(0) } else { caller }
}

#[tactic(auto, unfolding(rules::specs::Storage::area_at))]
pub fn area_at(start: Address, bytes: u32, subpool: u8, caller: TaskNumber) -> Area
    requires { length_good bytes ≡ true }
    ensures { result ≡ area_at start.0 bytes subpool caller.0 }
{
    Area {
        start,
        size: rounded(bytes),
        subpool,
        owner: owner_in(subpool, caller),
    }
}
