// Full tables, sound tests of them and copies.
ghost use Rattle.std.specs.Prelude.{◌≤◌};

use crate::numbers::{address, task};
use kinds::{Address, Area, Condition, Name, NameOffset, Slot, Task, TaskNumber};
use namearea::NameArea;
use queue::Queue;
use services::Tables;
use std::array;
use storage::Storage;
use tables::AllTables;
use tasks::TaskTable;

// Of every task.
const PRIORITY: u8 = Task::HIGHEST_PRIORITY as u8;

// The bytes of every name in the name area: the major part, a length byte, the longest minor part.
const NAME: usize = Name::MAJOR + 1 + Name::LONGEST;

// Every task place taken, by daughters of task 1.
fn full_tasks() -> TaskTable {
    TaskTable {
        places: array::from_fn(|i| Task {
            condition: Condition::Ready,
            mother: task(u32::from(i != 0)),
            limit: PRIORITY,
            dispatching: PRIORITY,
            ecb: None,
        }),
    }
}

// Every place of the queue taken, by exclusive entries, four of each task, and each for a name of its own.
fn full_queue() -> Queue {
    Queue {
        slots: array::from_fn(|i| Slot {
            task: task((i % TaskNumber::PLACES + 1) as u32),
            exclusive: true,
            name: NameOffset((i * NAME) as u16),
        }),
        count: Slot::PLACES,
    }
}

// The names of these entries, packed in their order.
fn full_names() -> NameArea {
    let mut bytes = [0; NameArea::BYTES];
    for (i, b) in bytes[..Slot::PLACES * NAME].iter_mut().enumerate() {
        *b = name_byte((i / NAME) as u8, i % NAME);
    }
    NameArea { bytes }
}

// A byte of an entry's name. The names differ in the first byte of their major parts only, which is compared last.
fn name_byte(entry: u8, at: usize) -> u8 {
    match at {
        0 => entry,
        Name::MAJOR => Name::LONGEST as u8,
        _ => 65,
    }
}

// Every area taken, each of the step, a doubleword long.
fn full_storage() -> Storage {
    Storage {
        areas: array::from_fn(|i| Area {
            start: address(i as u32 * Address::DOUBLEWORD),
            size: Address::DOUBLEWORD,
            subpool: 0,
            owner: TaskNumber(0),
        }),
        count: Area::PLACES,
    }
}

fn full_tables() -> Tables {
    Tables {
        all: AllTables {
            over: false,
            code: 0,
            tasks: full_tasks(),
            queue: full_queue(),
            ecbs: ecbs::empty(),
            storage: full_storage(),
        },
        names: full_names(),
    }
}

// How many of n tests came out true.
pub(crate) fn tests(n: u32) -> u32
    ensures { result ≤ n }
{
    let mut t = full_tables();
    let mut hits = 0;
    for i in 0..n {
        t.all.code = (i % 2) as u16;
        hits += u32::from(t.sound());
    }
    hits
}

// n copies, from one place to another and back.
pub(crate) fn copies(n: u32) -> u32 {
    let mut pair = [full_tables(); 2];
    for i in 0..n {
        let at = (i % 2) as usize;
        let mut x = pair[at];
        x.all.code = (i % 1000) as u16;
        pair[1 - at] = x;
    }
    pair[0].all.code as u32
}
