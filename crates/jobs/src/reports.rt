// The reports: who is stuck, and who stands in which queue. The service writes items into a list area that is lent
// to it, and a line is put for each. An item gives the place of an entry in the queue, which stays as it is, and the
// entry where its name lies. A place that the queue does not have, which no service writes, has no line; a name that
// the area does not have, which no sound tables show, has no bytes.
ghost use Rattle.std.specs.Prelude.{◌≡◌, OnOk};

use crate::listing::{UNWRITTEN, answer};
use crate::sizes::MOST_ROOM;
use crate::text::Out;
use kinds::{Name, NameOffset, Reply, Slot};
use services::Tables;
use std::fmt;
use std::fmt::Write;

// The bytes of an item of the first report: task, place of the entry, partner.
const STUCK_ITEM: usize = 3;

// Of the second: place of the entry, and 1 for an owner or 0 for a waiter.
const QUEUE_ITEM: usize = 2;

// The longest list areas.
const STUCK_LIST: usize = STUCK_ITEM * MOST_ROOM;

const QUEUES_LIST: usize = QUEUE_ITEM * MOST_ROOM;

// A name's major and minor part: eight bytes, a length byte, and as many as that says.
fn name_at(names: &[u8], name: NameOffset) -> Option<(&[u8], &[u8])> {
    let (_, from) = names.split_at_checked(usize::from(name.0))?;
    let (major, rest) = from.split_at_checked(Name::MAJOR)?;
    let (n, rest) = rest.split_first()?;
    let (minor, _) = rest.split_at_checked(usize::from(*n))?;
    Some((major, minor))
}

// A space and the name that lies there.
fn put_name(names: &[u8], name: NameOffset, out: &mut Out) -> fmt::Result
    ensures { OnOk result (out.new.written ≡ out.old.written) }
{
    match name_at(names, name) {
        Some((major, minor)) => {
            out.write_str(" ")?;
            out.put_hex(major)?;
            out.write_str(".")?;
            out.put_hex(minor)
        }
        None => Ok(()),
    }
}

// Who is stuck. This and `queues` differ in the service, in an item's bytes and in its line: one function over three
// closures would be no plainer.
pub(crate) fn stuck(t: &Tables, room: u8, out: &mut Out) -> fmt::Result
    ensures { OnOk result (out.new.written ≡ out.old.written) }
{
    let mut list = [UNWRITTEN; STUCK_LIST];
    let length = STUCK_ITEM * usize::from(room);
    let reply = t.stuck(&mut list[..length]).reply;
    answer(reply, &[], out)?;
    let Reply::Counted(count) = reply else {
        return Ok(());
    };
    for item in list.chunks_exact(STUCK_ITEM).take(usize::from(count)) {
        if let &[task, place, partner] = item
            && let Some(x) = t.all.queue.slots.get(usize::from(place))
        {
            put_stuck(&t.names.bytes, task, x, partner, out)?;
        }
    }
    Ok(())
}

// `stuck TASK NAME PARTNER`.
#[tactic(auto, using(crate::proofs::Writes::none_failed))]
fn put_stuck(names: &[u8], task: u8, x: &Slot, partner: u8, out: &mut Out) -> fmt::Result
    ensures { OnOk result (out.new.written ≡ out.old.written) }
{
    write!(out, "stuck {task}")?;
    put_name(names, x.name, out)?;
    writeln!(out, " {partner}")
}

// Who stands in which queue.
pub(crate) fn queues(t: &Tables, room: u8, out: &mut Out) -> fmt::Result
    ensures { OnOk result (out.new.written ≡ out.old.written) }
{
    let mut list = [UNWRITTEN; QUEUES_LIST];
    let length = QUEUE_ITEM * usize::from(room);
    let reply = t.queues(&mut list[..length]).reply;
    answer(reply, &[], out)?;
    let Reply::Counted(count) = reply else {
        return Ok(());
    };
    for item in list.chunks_exact(QUEUE_ITEM).take(usize::from(count)) {
        if let &[place, owner] = item
            && let Some(x) = t.all.queue.slots.get(usize::from(place))
        {
            put_queue(&t.names.bytes, x, owner, out)?;
        }
    }
    Ok(())
}

// `queue NAME TASK own`, or `wait`.
#[tactic(auto, using(crate::proofs::Writes::none_failed))]
fn put_queue(names: &[u8], x: &Slot, owner: u8, out: &mut Out) -> fmt::Result
    ensures { OnOk result (out.new.written ≡ out.old.written) }
{
    out.write_str("queue")?;
    put_name(names, x.name, out)?;
    let stands = if owner == 0 { "wait" } else { "own" };
    writeln!(out, " {} {stands}", x.task.0)
}
