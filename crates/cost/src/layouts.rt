// Layouts of areas for a search, and what is asked for where they lie.
ghost use Rattle.std.specs.Prelude.{◌≤◌, ◌<◌};
ghost use Rattle.kinds.specs.Limits.{most_areas};
ghost use Rattle.cost.specs.Layouts.{Modest};

use crate::numbers::{address, task};
use kinds::{Address, Area};
use storage::Storage;

// The whole region's.
const PAGES: u32 = Address::REGION / Address::PAGE;

// The subpool that is asked for, and another: no page that an area of the other touches is free to it.
pub(crate) const ASKED: u8 = 1;

const OTHER: u8 = 2;

// The areas are spread over so many pages (0: they begin at the region's start), and each starts a step further into
// its page than the one before it.
#[derive(Clone, Copy)]
pub(crate) struct Layout {
    pub(crate) pages: u32,
    pub(crate) step: u32,
    pub(crate) size: u32,
    pub(crate) subpool: u8,
    // What is asked for.
    pub(crate) bytes: u32,
}

// How many areas a letter stands for. The most leave one place free, since GETMAIN does not search full tables.
pub(crate) fn number_of(letter: u8) -> u32
    ensures { (0 < result) × (result ≤ most_areas) }
{
    match letter {
        b'1' => 1,
        b'3' => 32,
        _ => Area::PLACES as u32 - 1,
    }
}

// Side by side from the region's start on, with room behind the last.
fn packed() -> Layout
    ensures { Modest result }
{
    Layout {
        pages: 0,
        step: Address::DOUBLEWORD,
        size: Address::DOUBLEWORD,
        subpool: ASKED,
        bytes: Address::DOUBLEWORD,
    }
}

// In every page but the last; one area alone lies in the first.
fn scattered() -> Layout
    ensures { Modest result }
{
    Layout {
        pages: PAGES - 1,
        step: 2 * Address::DOUBLEWORD,
        size: Address::DOUBLEWORD,
        subpool: OTHER,
        bytes: Address::DOUBLEWORD,
    }
}

// In every page: one area alone is as large as the region.
fn taken(n: u32) -> Layout
    ensures { Modest result }
{
    let size = if n == 1 {
        Address::REGION
    } else {
        Address::DOUBLEWORD
    };
    Layout {
        pages: PAGES,
        step: 2 * Address::DOUBLEWORD,
        size,
        subpool: OTHER,
        bytes: Address::DOUBLEWORD,
    }
}

// Side by side up to the region's end, but for less than what is asked for (of the numbers above).
fn filled(n: u32) -> Layout
    requires { 0 < n }
    ensures { Modest result }
{
    let size = Address::REGION / n / Address::DOUBLEWORD * Address::DOUBLEWORD;
    Layout {
        pages: 0,
        step: size,
        size,
        subpool: ASKED,
        bytes: 2 * Address::DOUBLEWORD,
    }
}

pub(crate) fn layout_of(letter: u8, n: u32) -> Layout
    requires { 0 < n }
    ensures { Modest result }
{
    match letter {
        b'p' => packed(),
        b's' => scattered(),
        b't' => taken(n),
        _ => filled(n),
    }
}

// n areas of task 1, in the order of their addresses.
pub(crate) fn laid(n: u32, l: Layout) -> Storage
    requires { (n ≤ most_areas) × Modest l }
{
    let mut s = storage::empty();
    s.count = n as usize;
    for (i, x) in s.areas[..n as usize].iter_mut().enumerate() {
        let i = i as u32;
        *x = Area {
            start: address(i * l.pages / n * Address::PAGE + i * l.step),
            size: l.size,
            subpool: l.subpool,
            owner: task(1),
        };
    }
    s
}
