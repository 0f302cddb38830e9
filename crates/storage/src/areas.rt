// Areas: where they lie, and when two are apart.
ghost use Rattle.std.specs.Prelude.{◌≡◌};
ghost use Rattle.rules.specs.Storage.{start_of, past_end, one_holder, bytes_apart, first_page, past_page, pages_apart};
ghost use Rattle.rules.specs.Storage.{apart as apart_of, same_area};
ghost use Rattle.rules.specs.SoundAreas.{area_shape_good};

use kinds::{Address, Area};

// In u64, since a table may hold any numbers and the sum of two u32 can overflow.
fn start_of(a: Area) -> u64
    ensures { result ≡ start_of a }
{
    a.start.0 as u64
}

pub fn end_of(a: Area) -> u64
    ensures { result ≡ past_end a }
{
    a.start.0 as u64 + a.size as u64
}

#[tactic(auto, unfolding(rules::specs::Storage::one_holder))]
fn one_holder(a: Area, b: Area) -> bool
    ensures { result ≡ one_holder a b }
{
    a.owner == b.owner && a.subpool == b.subpool
}

// No byte in common.
#[tactic(auto, unfolding(rules::specs::Storage::bytes_apart))]
fn bytes_apart(a: Area, b: Area) -> bool
    ensures { result ≡ bytes_apart a b }
{
    end_of(a) <= start_of(b) || end_of(b) <= start_of(a)
}

// The first page that an area touches, and the page past its last.
fn first_page(a: Area) -> u64
    ensures { result ≡ first_page a }
{
    start_of(a) / Address::PAGE as u64
}

fn past_page(a: Area) -> u64
    ensures { result ≡ past_page a }
{
    end_of(a).div_ceil(Address::PAGE as u64)
}

// No page in common.
#[tactic(auto, unfolding(rules::specs::Storage::pages_apart))]
fn pages_apart(a: Area, b: Area) -> bool
    ensures { result ≡ pages_apart a b }
{
    past_page(a) <= first_page(b) || past_page(b) <= first_page(a)
}

// No byte in common, and no page unless of one holder.
#[tactic(auto, unfolding(rules::specs::Storage::apart))]
pub fn apart(a: Area, b: Area) -> bool
    ensures { result ≡ apart_of a b }
{
    bytes_apart(a, b) && (one_holder(a, b) || pages_apart(a, b))
}

#[tactic(auto, unfolding(rules::specs::Storage::same_area))]
pub fn same_area(a: Area, b: Area) -> bool
    ensures { result ≡ same_area a b }
{
    a.start == b.start && a.size == b.size && one_holder(a, b)
}

// Whole doublewords of the region, of a legal subpool.
#[tactic(auto, unfolding(rules::specs::SoundAreas::area_shape_good))]
pub fn shape_good(a: Area) -> bool
    ensures { result ≡ area_shape_good a }
{
    0 < a.size
        && a.size % Address::DOUBLEWORD == 0
        && a.start.0 % Address::DOUBLEWORD == 0
        && end_of(a) <= Address::REGION as u64
        && Area::subpool_good(a.subpool)
}
