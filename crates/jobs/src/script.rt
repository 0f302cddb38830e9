// The script on standard input, from its first line to its last.
use crate::input::{Input, Unread};
use crate::listing::UNWRITTEN;
use crate::sizes::{BLOCK, HIGHEST_LINE, MOST_CODES};
use crate::text::{Out, Unwritten};
use crate::turn::What;
use crate::{input, listing, poking, turn};
use services::Tables;
use std::fmt;
use std::io::{Stderr, Stdin, Stdout};

// How a run ended.
#[derive(Clone, Copy)]
pub enum Ending {
    // The end of the input was seen, and every answer was written.
    Whole,
    // A read or a write failed, and standard error has been told why.
    CutOff,
    // Nobody reads the answers any more.
    Unwanted,
}

// The end of the input was not seen: a read or a write failed.
#[derive(Clone, Copy)]
struct Cut;

impl From<Unread> for Cut {
    fn from(_: Unread) -> Cut {
        Cut
    }
}

impl From<fmt::Error> for Cut {
    fn from(_: fmt::Error) -> Cut {
        Cut
    }
}

// Answers whether the end of the input was seen and every answer written. That is for the system to say, so nothing is
// promised of it.
pub fn run(stdin: Stdin, stdout: Stdout, stderr: Stderr) -> Ending {
    let mut out = Out::new(stdout, stderr);
    let answered = answer_all(Input { stdin, stderr }, &mut out);
    // what was answered before a read failed is written too
    match (answered, out.finish()) {
        (_, Err(Unwritten::Unwanted)) => Ending::Unwanted,
        (Ok(()), Ok(())) => Ending::Whole,
        _ => Ending::CutOff,
    }
}

// Before the first `fresh` the tables are those of a step over with code 0, which a fresh start with dispatching above
// limit gives back.
fn start() -> Tables {
    Tables::fresh(0, 1).tables
}

fn answer_all(script: Input, out: &mut Out) -> Result<(), Cut> {
    let mut block = [0u8; BLOCK];
    let mut tables = start();
    let mut next = 0;
    let mut end = 0;
    for number in 1..=HIGHEST_LINE {
        let Some(s) = input::line(script, &mut block, next, end)? else {
            return Ok(());
        };
        next = s.next;
        end = s.end;
        let asked = turn::read(&block[s.from..s.to]);
        match asked.what {
            What::Say(said) => said.put(number, out)?,
            What::Request(request) => {
                let mut codes = [UNWRITTEN; MOST_CODES];
                let lent = &mut codes[..asked.length];
                let a = tables.serve(request, asked.names, asked.ecbs, lent);
                tables = a.tables;
                listing::answer(a.reply, lent, out)?;
            }
            What::Fresh { limit, dispatching } => {
                let a = Tables::fresh(limit, dispatching);
                tables = a.tables;
                listing::answer(a.reply, &[], out)?;
            }
            What::Poke(poke) => {
                let said = poking::poked(
                    &mut tables.all,
                    &mut tables.names.bytes,
                    poke,
                    &block,
                    s.to,
                );
                said.put(number, out)?;
            }
            What::Show(shows) => shows.put(&tables, out)?,
        }
    }
    Err(Cut)
}
