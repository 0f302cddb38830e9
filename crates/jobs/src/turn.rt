// What a line asks for. It is read whole before the tables come into it, so that only a line that asks for something of
// them has them copied.
ghost use Rattle.std.specs.Prelude.{◌≤◌};
ghost use Rattle.jobs.specs.Sizes.{most_codes};

use crate::poke::Poke;
use crate::saying::Said;
use crate::shows::Shows;
use crate::sizes::{LONGEST_LINE, MOST_CODES};
use crate::word::Words;
use crate::{beside, form, number};
use kinds::{EcbList, NameList, Request};

// Where nothing is asked of the tables there is only something to say. A fresh start takes none of them, so it stands
// apart from a poke, which is lent them.
#[derive(Clone, Copy)]
pub(crate) enum What {
    Say(Said),
    Request(Request),
    Fresh { limit: u16, dispatching: u16 },
    Poke(Poke),
    Show(Shows),
}

// The lists of a request, and the length of its codes area.
#[derive(Clone, Copy)]
pub(crate) struct Asked {
    pub(crate) what: What,
    pub(crate) names: NameList,
    pub(crate) ecbs: EcbList,
    pub(crate) length: usize,
    ghost fits: { length ≤ most_codes },
}

impl Asked {
    // With nothing beside it.
    fn alone(what: What) -> Asked {
        Asked {
            what,
            names: NameList::none(),
            ecbs: EcbList::none(),
            length: 0,
        }
    }
}

pub(crate) fn read(line: &[u8]) -> Asked {
    match whole(line) {
        Some(asked) => asked,
        None => Asked::alone(What::Say(Said::Unreadable)),
    }
}

// An empty line, or a remark, asks for nothing.
fn whole(line: &[u8]) -> Option<Asked> {
    if LONGEST_LINE < line.len() {
        return None;
    }
    if matches!(line, [] | [b'#', ..]) {
        return Some(Asked::alone(What::Say(Said::Nothing)));
    }
    let mut words = Words::of(line);
    let what = form::read(&mut words)?;
    let mut asked = Asked::alone(what);
    // ENQ and DEQ have two lines alike: one function for both would be longer
    match what {
        What::Request(Request::Enq { .. }) => {
            asked.length = words.up_to(MOST_CODES)?;
            asked.names.count = beside::read(&mut words, &mut asked.names.names, beside::marked)?;
        }
        What::Request(Request::Deq { .. }) => {
            asked.length = words.up_to(MOST_CODES)?;
            asked.names.count = beside::read(&mut words, &mut asked.names.names, beside::unmarked)?;
        }
        What::Request(Request::Wait { .. }) => {
            asked.ecbs.count = beside::read(&mut words, &mut asked.ecbs.ecbs, number::ecb)?;
        }
        _ => {}
    }
    if words.word().is_some() {
        return None;
    }
    Some(asked)
}
