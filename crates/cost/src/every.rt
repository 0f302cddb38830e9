// The search of every multiple of 8, which is timed beside the one that GETMAIN makes and used nowhere else. What it
// promises is what `mainstorage::room::lowest` promises: the two always answer the same.
ghost use Rattle.std.specs.Prelude.{◌≡◌, ◌≤◌};
ghost use Rattle.kinds.specs.Limits.{most_areas};
ghost use Rattle.lists.specs.Lists.{every};
ghost use Rattle.rules.specs.Storage.{apart, lowest as lowest_of};
ghost use Rattle.storage.specs.Stored.{areas_in};

use kinds::{Address, Area};
use storage::{Storage, areas};

fn all_apart(live: &[Area], a: Area) -> bool
    ensures { result ≡ every (apart a) live.now }
{
    live.iter().all(|x| areas::apart(a, *x))
}

pub(crate) fn every_multiple(s: Storage, want: Area) -> Option<Address>
    requires { s.count ≤ most_areas }
    ensures { result ≡ lowest_of (areas_in s) want }
{
    let live = &s.areas[..s.count];
    for n in 0..Address::REGION / Address::DOUBLEWORD {
        let start = Address(n * Address::DOUBLEWORD);
        let a = Area { start, ..want };
        // What ends beyond the region here does so further up too.
        if (Address::REGION as u64) < areas::end_of(a) {
            return None;
        }
        if all_apart(live, a) {
            return Some(start);
        }
    }
    None
}
