// One request: through `serve`, with what stands beside it.
ghost use Rattle.std.specs.Prelude.{◌≡◌};
ghost use Rattle.cases.specs.Asked.{next_tables};

use kinds::{Address, EcbList, EcbNumber, Name, NameList, Request, Ret, TaskNumber, Wanted};
use services::Tables;
use std::io::Stdout;

// The codes area of each request, and what each byte of it is before.
pub(crate) const CODES: usize = 4;

pub(crate) const UNWRITTEN: u8 = 0xee;

// A step's tables, and where its lines are written.
#[derive(Clone, Copy)]
pub(crate) struct Step {
    pub(crate) out: Stdout,
    pub(crate) tables: Tables,
}

impl Step {
    // A fresh step whose first task has the priorities 200 and 150.
    pub(crate) fn fresh(out: Stdout, text: &str) -> Step {
        let start = Tables::fresh(200, 150);
        let step = Step {
            out,
            tables: start.tables,
        };
        step.tell_answer(text, start.reply, [UNWRITTEN; CODES]);
        step
    }

    // The answer is told, and its tables are there for the next request.
    pub(crate) fn beside(&mut self, text: &str, request: Request, names: NameList, ecbs: EcbList)
        ensures { self.new.tables ≡ next_tables self.old.tables request names ecbs }
    {
        let mut codes = [UNWRITTEN; CODES];
        let answer = self.tables.serve(request, names, ecbs, &mut codes);
        self.tables = answer.tables;
        self.tell_answer(text, answer.reply, codes);
    }

    // A request that has no use for a list.
    pub(crate) fn plainly(&mut self, text: &str, request: Request) {
        self.beside(text, request, NameList::none(), EcbList::none());
    }

    // Task 1 attaches a task.
    pub(crate) fn attach(&mut self, text: &str, lpmod: u16, dpmod: i16) {
        let request = Request::Attach {
            caller: task(1),
            lpmod,
            dpmod,
            ecb: None,
        };
        self.plainly(text, request);
    }

    pub(crate) fn enq(&mut self, text: &str, caller: TaskNumber, ret: Ret, names: NameList) {
        let request = Request::Enq { caller, ret };
        self.beside(text, request, names, EcbList::none());
    }
}

// A list of one name. It stands at the places past the count too, where it counts for nothing.
pub(crate) fn one(exclusive: bool, name: Name) -> NameList {
    NameList {
        count: 1,
        names: [Wanted { exclusive, name }; NameList::MOST],
    }
}

// A name whose minor part begins with two bytes, and then has zeros.
pub(crate) fn name(first: u8, second: u8, length: u16) -> Name {
    let mut minor = [0; Name::LONGEST];
    minor[0] = first;
    minor[1] = second;
    Name {
        major: [b'X'; Name::MAJOR],
        minor,
        length,
    }
}

// The kinds of a case's numbers. One that is out of range stays so: what asks for it is refused, by 101, and the output
// is held to what the case says.
pub(crate) fn task(n: u32) -> TaskNumber {
    TaskNumber::new(n).unwrap_or(TaskNumber(TaskNumber::HIGHEST + 1))
}

pub(crate) fn ecb(n: u32) -> EcbNumber {
    EcbNumber::new(n).unwrap_or(EcbNumber(EcbNumber::HIGHEST + 1))
}

pub(crate) fn address(n: u32) -> Address {
    Address::new(n).unwrap_or(Address(Address::HIGHEST + 1))
}
