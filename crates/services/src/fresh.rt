// The fresh start.
ghost use Rattle.std.specs.Prelude.{◌≡◌};
ghost use Rattle.rules.specs.Steps.{kept_by};
ghost use Rattle.rules.specs.Fresh.{begun_with, fresh_good, fresh_of};
ghost use Rattle.tables.specs.Tables.{tables_of as all_of};
ghost use Rattle.services.specs.Kept.{tables_of, said};

use crate::{Answer, Tables, answering};
use kinds::{Condition, Refusal, Reply, Task, TaskNumber};
use namearea::NameArea;
use tables::AllTables;

// 101: limit and dispatching priority are 0 to 255, dispatching not above limit.
#[tactic(auto, unfolding(rules::specs::Fresh::fresh_good))]
fn fresh_good(limit: u16, dispatching: u16) -> bool
    ensures { result ≡ fresh_good limit dispatching }
{
    Task::priority_good(limit) && dispatching <= limit
}

// A step that runs, with its first task.
#[tactic(auto, unfolding(rules::specs::Fresh::begun_with, rules::specs::Steps::over_step))]
fn begun(first: Task) -> AllTables
    ensures { result ≡ all_of (begun_with first) }
{
    let t = tables::over_with(0);
    AllTables {
        over: false,
        tasks: tasks::with_place(t.tasks, TaskNumber(TaskNumber::LOWEST), first),
        ..t
    }
}

impl Tables {
    // A fresh step, or 101 and a step already over with code 0.
    #[tactic(auto, using(crate::proofs::Glue::begins))]
    pub fn fresh(limit: u16, dispatching: u16) -> Answer
        ensures { said result ≡ kept_by tables_of (fresh_of limit dispatching) }
    {
        if !fresh_good(limit, dispatching) {
            let t = Tables {
                all: tables::over_with(0),
                names: NameArea::empty(),
            };
            return answering(t, Reply::Refused(Refusal::OutOfRange));
        }
        let first = Task {
            condition: Condition::Ready,
            mother: TaskNumber(0),
            limit: limit as u8,
            dispatching: dispatching as u8,
            ecb: None,
        };
        let t = Tables {
            all: begun(first),
            names: NameArea::empty(),
        };
        answering(t, Reply::Done)
    }
}
