// Pokes carried out: a place to raw fields, one of them overwritten, and back where the tables can hold it; bytes into
// the name area.
ghost use Rattle.std.specs.Prelude.{◌*◌, ◌<◌, ◌≤◌, ◌^◌, length};

use crate::hex;
use crate::poke::Poke;
use crate::raw::{Row, held_flag, held_half, used};
use crate::saying::Said;
use namearea::NameArea;
use queue::Queue;
use storage::Storage;
use tables::AllTables;

// What is said of it: where the tables cannot hold what is poked they stay as they were. The line that pokes ends at
// `end` of the block.
pub(crate) fn poked(
    t: &mut AllTables,
    names: &mut [u8; NameArea::BYTES],
    poke: Poke,
    block: &[u8],
    end: usize,
) -> Said
    requires { end ≤ length block.now }
{
    let held = match poke {
        Poke::Over(value) => poked_over(t, value),
        Poke::Code(value) => poked_code(t, value),
        Poke::Task { at, field, value } => poked_place(
            &mut t.tasks.places,
            at,
            field as usize,
            value,
        ),
        Poke::Entry { at, field, value } => poked_entry(&mut t.queue, at, field as usize, value),
        Poke::Ecb { at, field, value } => poked_place(&mut t.ecbs.ecbs, at, field as usize, value),
        Poke::Area { at, field, value } => poked_area(&mut t.storage, at, field as usize, value),
        Poke::Name { at, count } => poked_name(names, at, count, &block[..end]),
    };
    match held {
        Some(()) => Said::Ok,
        None => Said::NotHeld,
    }
}

// The bytes whose digits end the line. They were read as digits, as many as the line has, and for a place in the area.
fn poked_name(
    names: &mut [u8; NameArea::BYTES],
    at: usize,
    count: usize,
    line: &[u8],
) -> Option<()> {
    let first = line.len().checked_sub(count.checked_mul(2)?)?;
    let room = names.get_mut(at..at.checked_add(count)?)?;
    hex::read(&line[first..], room)?;
    Some(())
}

fn poked_over(t: &mut AllTables, value: u32) -> Option<()> {
    t.over = held_flag(value)?;
    Some(())
}

fn poked_code(t: &mut AllTables, value: u32) -> Option<()> {
    t.code = held_half(value)?;
    Some(())
}

// One field of the place is overwritten.
fn poked_place<const N: usize, R: Row<N>>(
    places: &mut [R],
    at: usize,
    field: usize,
    value: u32,
) -> Option<()>
    requires { N * 4 < 2 ^ 63 }
{
    let place = places.get_mut(at)?;
    let mut raw = place.raw();
    *raw.get_mut(field)? = value;
    *place = R::held(raw)?;
    Some(())
}

// The two packed tables count their places anew; the queue and the storage have no count in common.
fn poked_entry(q: &mut Queue, at: usize, field: usize, value: u32) -> Option<()> {
    poked_place(&mut q.slots, at, field, value)?;
    q.count = used(&q.slots);
    Some(())
}

fn poked_area(s: &mut Storage, at: usize, field: usize, value: u32) -> Option<()> {
    poked_place(&mut s.areas, at, field, value)?;
    s.count = used(&s.areas);
    Some(())
}
