// Where there is room for an area.
ghost use Rattle.std.specs.Prelude.{◌≡◌, ◌≤◌, not, find};
ghost use Rattle.kinds.specs.Limits.{most_areas};
ghost use Rattle.kinds.specs.declared.areas.Area.{Area};
ghost use Rattle.rules.specs.Storage.{placed_at, apart, lowest as lowest_of};
ghost use Rattle.storage.specs.Stored.{areas_in};
ghost use Rattle.mainstorage.specs.Bars.{bar_of, next_at};

use kinds::{Address, Area};
use storage::{Storage, areas};

// The area wanted, at an address.
fn placed(want: Area, at: Address) -> Area
    ensures { result ≡ placed_at want at.0 }
{
    Area { start: at, ..want }
}

// Below its bar x stands in the way: up to its end for its own holder, else to the end of its last page.
#[tactic(auto, unfolding(crate::specs::Bars::bar_of, rules::specs::Storage::one_holder, lists::specs::Pick::pick))]
fn bar(want: Area, x: Area) -> u64
    ensures { result ≡ bar_of want x }
{
    let end = areas::end_of(x);
    if want.owner == x.owner && want.subpool == x.subpool {
        end
    } else {
        end.next_multiple_of(Address::PAGE as u64)
    }
}

// The first multiple of 8 not below a bar, or the region's end.
#[tactic(auto, unfolding(crate::specs::Bars::next_at, rules::specs::Storage::rounded, lists::specs::Pick::pick))]
fn next(bar: u64) -> u32
    ensures { result ≡ next_at bar }
{
    if Address::REGION as u64 <= bar {
        Address::REGION
    } else {
        (bar as u32).next_multiple_of(Address::DOUBLEWORD)
    }
}

// The page starts, of which the region's start is one, and the ends of areas: a search comes to no other address in
// sound tables, and to no more in any. So the count never cuts one short.
const TRIES: usize = (Address::REGION / Address::PAGE) as usize + Area::PLACES;

// The first of the areas that is not apart from a.
fn in_way(live: &[Area], a: Area) -> Option<Area>
    ensures { result ≡ find (λ (x : Area). not (apart a x)) live.now }
{
    live.iter().copied().find(|x| !areas::apart(a, *x))
}

// The lowest multiple of 8 at which the area wanted is permitted.
pub fn lowest(s: Storage, want: Area) -> Option<Address>
    requires { s.count ≤ most_areas }
    ensures { result ≡ lowest_of (areas_in s) want }
{
    let live = &s.areas[..s.count];
    // No `successors`: what ends the search, no area in the way or the region's end, would be asked again of its last.
    let mut at = 0;
    for _ in 0..TRIES {
        if Address::REGION <= at {
            return None;
        }
        let a = placed(want, Address(at));
        // What ends beyond the region here does so further up too.
        if (Address::REGION as u64) < areas::end_of(a) {
            return None;
        }
        let Some(x) = in_way(live, a) else {
            return Some(Address(at));
        };
        // What is not apart here is not apart below its bar.
        at = next(bar(want, x));
    }
    None
}
