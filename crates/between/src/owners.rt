// Areas and their owners: the storage beside the task table.
ghost use Rattle.std.specs.Prelude.{◌≡◌, ◌≤◌};
ghost use Rattle.lists.specs.Lists.{keep};
ghost use Rattle.kinds.specs.Limits.{most_areas};
ghost use Rattle.rules.specs.SoundAreas.{area_owner_good, area_owners_good};
ghost use Rattle.rules.specs.Ending.{area_stays};
ghost use Rattle.storage.specs.Stored.{areas_in, stored_areas, PackedAreas};

use crate::is_live;
use crate::staying::staying;
use kinds::Area;
use storage::Storage;
use tasks::TaskTable;

// Of the step, in subpool 0, or else of a live task.
fn owner_good(f: &TaskTable, a: Area) -> bool
    ensures { result ≡ area_owner_good f.now.places a }
{
    if a.subpool == 0 {
        return a.owner.0 == 0;
    }
    is_live(f, a.owner)
}

// Each area is the step's, or of a live task.
pub fn owners_good(s: Storage, f: TaskTable) -> bool
    requires { s.count ≤ most_areas }
    ensures { result ≡ area_owners_good f.places (areas_in s) }
{
    s.areas[..s.count].iter().all(|a| owner_good(&f, *a))
}

// Of subpool 0, or of a task that is still live.
fn stays(f: &TaskTable, a: Area) -> bool
    ensures { result ≡ area_stays f.now.places a }
{
    a.subpool == 0 || is_live(f, a.owner)
}

// The storage without the areas of tasks that are not live.
pub fn areas_left(s: Storage, f: TaskTable) -> Storage
    requires { PackedAreas s }
    ensures { result ≡ stored_areas (keep (area_stays f.places) (areas_in s)) }
{
    let mut r = storage::empty();
    r.count = staying(&s.areas[..s.count], &mut r.areas, |a| stays(&f, *a));
    r
}
