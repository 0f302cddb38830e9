// What is answered: the line of a request, and the lines of a dump.
ghost use Rattle.std.specs.Prelude.{◌≡◌, ◌+◌, ◌*◌, ◌<◌, ◌^◌, length, OnOk};

use crate::raw::{Row, is_used};
use crate::text::Out;
use kinds::Reply;
use services::Tables;
use std::fmt;
use std::fmt::Write;

// Every byte of a lent area before a request or a report.
pub(crate) const UNWRITTEN: u8 = 0xee;

// `NUMBER BESIDES`, and what was written of the codes area.
#[tactic(auto, using(crate::proofs::Writes::none_failed))]
pub(crate) fn answer(reply: Reply, codes: &[u8], out: &mut Out) -> fmt::Result
    ensures { OnOk result (out.new.written ≡ out.old.written) }
{
    write!(out, "{} {}", reply.number(), reply.besides())?;
    if codes.iter().any(|byte| *byte != UNWRITTEN) {
        out.write_str(" codes=")?;
        out.put_hex(codes)?;
    }
    writeln!(out)
}

// Task numbers begin with 1.
#[tactic(auto, using(crate::proofs::Writes::none_failed))]
pub(crate) fn dump(t: &Tables, out: &mut Out) -> fmt::Result
    ensures { OnOk result (out.new.written ≡ out.old.written) }
{
    let a = &t.all;
    writeln!(out, "step {} {}", u32::from(a.over), a.code)?;
    put_rows("task", 1, &a.tasks.places, out)?;
    put_rows("entry", 0, &a.queue.slots, out)?;
    put_names(&t.names.bytes, out)?;
    put_rows("ecb", 0, &a.ecbs.ecbs, out)?;
    put_rows("area", 0, &a.storage.areas, out)?;
    out.write_str(".\n")
}

// A line for each place that has a field not zero: a word, the place's number and the raw fields, one space between.
#[tactic(auto, using(crate::proofs::Writes::none_failed))]
fn put_rows<const N: usize, R: Row<N>>(
    word: &str,
    first: usize,
    places: &[R],
    out: &mut Out,
) -> fmt::Result
    requires numbered { first + length places.now < 2 ^ 64 }
    requires sized { N * 4 < 2 ^ 63 }
    ensures { OnOk result (out.new.written ≡ out.old.written) }
{
    for (i, place) in places.iter().enumerate() {
        if is_used(place) {
            write!(out, "{word} {}", first + i)?;
            for n in &place.raw() {
                write!(out, " {n}")?;
            }
            writeln!(out)?;
        }
    }
    Ok(())
}

// The name area up to its last byte that is not zero.
#[tactic(auto, using(crate::proofs::Writes::none_failed))]
fn put_names(names: &[u8], out: &mut Out) -> fmt::Result
    ensures { OnOk result (out.new.written ≡ out.old.written) }
{
    match names.iter().rposition(|byte| *byte != 0) {
        Some(last) => {
            out.write_str("names ")?;
            out.put_hex(&names[..=last])?;
            writeln!(out)
        }
        None => Ok(()),
    }
}
