// All tables of a step, in one struct. What has to name each of them stands in this room: the struct, one setter for
// each table, the empty step, the sound test, the ending.
#![tactic(auto)]

pub mod ending;
pub mod made;
pub mod sound;

ghost use Rattle.std.specs.Prelude.{◌≡◌};
ghost use Rattle.rules.specs.Steps.{over_step};
ghost use Rattle.tables.specs.Tables.{tables_of, put_tasks, put_queue, put_ecbs, put_storage};

use ecbs::EcbTable;
use queue::Queue;
use storage::Storage;
use tasks::TaskTable;

#[derive(Clone, Copy)]
pub struct AllTables {
    pub over: bool,
    pub code: u16,
    pub tasks: TaskTable,
    pub queue: Queue,
    pub ecbs: EcbTable,
    pub storage: Storage,
}

// The tables of a step that is over.
#[tactic(auto, unfolding(rules::specs::Steps::over_step))]
pub fn over_with(code: u16) -> AllTables
    ensures { result ≡ tables_of (over_step code) }
{
    AllTables {
        over: true,
        code,
        tasks: tasks::empty(),
        queue: queue::empty(),
        ecbs: ecbs::empty(),
        storage: storage::empty(),
    }
}

pub fn put_tasks(t: AllTables, f: TaskTable) -> AllTables
    ensures { result ≡ put_tasks t f }
{
    AllTables { tasks: f, ..t }
}

pub fn put_queue(t: AllTables, q: Queue) -> AllTables
    ensures { result ≡ put_queue t q }
{
    AllTables { queue: q, ..t }
}

pub fn put_ecbs(t: AllTables, e: EcbTable) -> AllTables
    ensures { result ≡ put_ecbs t e }
{
    AllTables { ecbs: e, ..t }
}

pub fn put_storage(t: AllTables, s: Storage) -> AllTables
    ensures { result ≡ put_storage t s }
{
    AllTables { storage: s, ..t }
}
