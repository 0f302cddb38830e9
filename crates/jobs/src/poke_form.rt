// What a line that pokes asks for: the words after `poke`.
use crate::hex;
use crate::poke::{AreaField, EcbField, EntryField, Poke, TaskField};
use crate::saying::Said;
use crate::sizes::{MOST_POKED, POKED_MINOR};
use crate::turn::What;
use crate::word::Words;
use kinds::{Area, EcbNumber, Name, Slot, TaskNumber};
use namearea::NameArea;

pub(crate) fn read(words: &mut Words) -> Option<What> {
    match words.word()? {
        b"step" => step(words).map(What::Poke),
        b"task" => task(words).map(What::Poke),
        b"entry" => entry(words),
        b"ecb" => ecb(words).map(What::Poke),
        b"area" => area(words).map(What::Poke),
        b"name" => name(words).map(What::Poke),
        _ => None,
    }
}

fn step(words: &mut Words) -> Option<Poke> {
    match words.word()? {
        b"over" => words.number().map(Poke::Over),
        b"code" => words.number().map(Poke::Code),
        _ => None,
    }
}

fn task(words: &mut Words) -> Option<Poke> {
    Some(Poke::Task {
        at: words.up_to(TaskNumber::PLACES)?.checked_sub(1)?,
        field: match words.word()? {
            b"state" => TaskField::State,
            b"mother" => TaskField::Mother,
            b"limit" => TaskField::Limit,
            b"disp" => TaskField::Disp,
            b"hasecb" => TaskField::HasEcb,
            b"ecb" => TaskField::Ecb,
            b"rwait" => TaskField::Rwait,
            b"need" => TaskField::Need,
            _ => return None,
        },
        value: words.number()?,
    })
}

// No entry has a length, a major or a minor part any more: its name has them. A poke of one is still read whole, so
// that only such a poke is told that it is not held, and any other line is unreadable.
fn entry(words: &mut Words) -> Option<What> {
    let at = words.up_to(Slot::PLACES - 1)?;
    let field = match words.word()? {
        b"task" => EntryField::Task,
        b"excl" => EntryField::Excl,
        b"name" => EntryField::Name,
        b"length" => return words.number().map(|_| What::Say(Said::NotHeld)),
        b"major" => return part(words, Name::MAJOR),
        b"minor" => return part(words, POKED_MINOR),
        _ => return None,
    };
    let value = words.number()?;
    Some(What::Poke(Poke::Entry { at, field, value }))
}

fn part(words: &mut Words, whole: usize) -> Option<What> {
    let count = hex::read(words.word()?, &mut [])?;
    (count == whole).then_some(What::Say(Said::NotHeld))
}

fn ecb(words: &mut Words) -> Option<Poke> {
    Some(Poke::Ecb {
        at: words.up_to(EcbNumber::PLACES - 1)?,
        field: match words.word()? {
            b"wait" => EcbField::Wait,
            b"complete" => EcbField::Complete,
            b"code" => EcbField::Code,
            b"waiter" => EcbField::Waiter,
            _ => return None,
        },
        value: words.number()?,
    })
}

fn area(words: &mut Words) -> Option<Poke> {
    Some(Poke::Area {
        at: words.up_to(Area::PLACES - 1)?,
        field: match words.word()? {
            b"address" => AreaField::Address,
            b"length" => AreaField::Length,
            b"subpool" => AreaField::Subpool,
            b"owner" => AreaField::Owner,
            _ => return None,
        },
        value: words.number()?,
    })
}

// Bytes of the name area, which has room for all of them.
fn name(words: &mut Words) -> Option<Poke> {
    let at = words.up_to(NameArea::BYTES)?;
    let count = hex::read(words.word()?, &mut [])?;
    if count == 0 || MOST_POKED < count || NameArea::BYTES - count < at {
        return None;
    }
    Some(Poke::Name { at, count })
}
