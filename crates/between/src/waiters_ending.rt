// What an ending takes from the event control blocks.
ghost use Rattle.std.specs.Prelude.{◌≡◌, map};
ghost use Rattle.rules.specs.Ending.{waiter_stays};
ghost use Rattle.ecbs.specs.Blocks.{ecb_table_of};

use crate::is_live;
use ecbs::EcbTable;
use kinds::{Ecb, TaskNumber};
use tasks::TaskTable;

// The wait bit is off unless its task is live.
fn waiter_stays(f: &TaskTable, x: Ecb) -> Ecb
    ensures { result ≡ waiter_stays f.now.places x }
{
    if is_live(f, x.waiter) {
        return x;
    }
    Ecb {
        waiter: TaskNumber(0),
        ..x
    }
}

// The wait bits of tasks that are not live are cleared.
pub fn wait_bits_left(e: EcbTable, f: TaskTable) -> EcbTable
    ensures { result ≡ ecb_table_of (map (waiter_stays f.places) e.ecbs) }
{
    let mut r = e;
    for x in r.ecbs.iter_mut() {
        *x = waiter_stays(&f, *x);
    }
    r
}
