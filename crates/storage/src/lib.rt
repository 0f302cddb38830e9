// The storage table: areas by rising address, packed.
#![tactic(auto)]

pub mod areas;

ghost use Rattle.std.specs.Prelude.{◌≡◌, not, ◌&&◌, [], ◌≤◌, ◌<◌, ltb, position};
ghost use Rattle.lists.specs.Lists.{every, some, keep};
ghost use Rattle.kinds.specs.Limits.{most_areas};
ghost use Rattle.kinds.specs.declared.areas.Area.{Area};
ghost use Rattle.rules.specs.Storage.{start_of, same_area, inserted_in};
ghost use Rattle.rules.specs.SoundAreas.{areas_fit, area_shapes_good, areas_rise, areas_apart};
ghost use Rattle.storage.specs.Stored.{stored_areas, areas_in, PackedAreas, is_zero, packed_areas};

use kinds::Area;

// Any count and any places, as of a queue: demand 1 hands any tables to `sound` and `serve` (theorems on `packed`).
#[derive(Clone, Copy)]
pub struct Storage {
    pub areas: [Area; Area::PLACES],
    pub count: usize,
}

// No area.
#[tactic(auto, unfolding(lists::specs::Tables::padded))]
pub fn empty() -> Storage
    ensures { result ≡ stored_areas [] }
{
    Storage {
        areas: [Area::zero(); Area::PLACES],
        count: 0,
    }
}

#[tactic(auto, unfolding(crate::specs::Stored::is_zero))]
fn is_zero(a: Area) -> bool
    ensures { result ≡ is_zero a }
{
    areas::same_area(a, Area::zero())
}

fn all_zero(places: &[Area]) -> bool
    ensures { result ≡ every is_zero places.now }
{
    places.iter().all(|x| is_zero(*x))
}

// Nothing but its areas stands in the storage: the unused places are zero.
#[tactic(auto, using(crate::proofs::Tests::counted))]
pub fn packed(s: Storage) -> bool
    ensures { result ≡ packed_areas s }
{
    s.count <= Area::PLACES && all_zero(&s.areas[s.count..])
}

#[tactic(auto, using(crate::proofs::Tests::counted))]
pub fn areas_fit(s: Storage) -> bool
    requires { s.count ≤ most_areas }
    ensures { result ≡ areas_fit (areas_in s) }
{
    s.count <= Area::PLACES
}

#[tactic(auto, unfolding(rules::specs::SoundAreas::area_shapes_good))]
pub fn shapes_good(s: Storage) -> bool
    requires { s.count ≤ most_areas }
    ensures { result ≡ area_shapes_good (areas_in s) }
{
    s.areas[..s.count].iter().all(|x| areas::shape_good(*x))
}

// Each area starts above the one before it and is apart from it. So it is then with all before it: neighbours are
// enough.
pub fn areas_in_order(s: Storage) -> bool
    requires { s.count ≤ most_areas }
    ensures { result ≡ (areas_rise (areas_in s) && areas_apart (areas_in s)) }
{
    s.areas[..s.count].is_sorted_by(|x, y| x.start.0 < y.start.0 && areas::apart(*x, *y))
}

// The place of the first area that starts above a.
fn above(areas: &[Area], a: Area) -> Option<usize>
    ensures { result ≡ position (λ (x : Area). ltb (start_of a) (start_of x)) areas.now }
{
    areas.iter().position(|x| a.start.0 < x.start.0)
}

// The storage with one area more, in address order: those behind its place move up by one.
pub fn insert(s: Storage, a: Area) -> Storage
    requires { PackedAreas s × (s.count < most_areas) }
    ensures { result ≡ stored_areas (inserted_in a (areas_in s)) }
{
    let n = s.count;
    let at = above(&s.areas[..n], a).unwrap_or(n);
    let mut r = s;
    r.areas.copy_within(at..n, at + 1);
    r.areas[at] = a;
    r.count = n + 1;
    r
}

// The area stands in the storage.
pub fn has_area(s: Storage, a: Area) -> bool
    requires { s.count ≤ most_areas }
    ensures { result ≡ some (same_area a) (areas_in s) }
{
    s.areas[..s.count].iter().any(|x| areas::same_area(a, *x))
}

// The storage without the area.
pub fn without(s: Storage, a: Area) -> Storage
    requires { PackedAreas s }
    ensures { result ≡ stored_areas (keep (λ (b : Area). not (same_area a b)) (areas_in s)) }
{
    let mut r = empty();
    for x in &s.areas[..s.count] {
        if !areas::same_area(a, *x) {
            r.areas[r.count] = *x;
            r.count += 1;
        }
    }
    r
}
