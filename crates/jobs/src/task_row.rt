// A place of the task table as raw fields, and back.
use crate::raw::{Row, held_byte, held_flag};
use kinds::{Condition, EcbNumber, Task, TaskNumber};

// What a task is doing, by the numbers that a script has for it.
const FREE: u32 = 0;

const LIVE: u32 = 1;

const ENDED: u32 = 2;

impl Row<8> for Task {
    fn raw(self) -> [u32; 8] {
        let k = self.condition;
        let e = self.ecb;
        [
            state_of(k),
            u32::from(self.mother.0),
            u32::from(self.limit),
            u32::from(self.dispatching),
            u32::from(e.is_some()),
            e.map_or(0, |n| u32::from(n.0)),
            u32::from(k.in_resource_wait()),
            need_of(k),
        ]
    }

    fn held([state, mother, limit, disp, hasecb, ecb, rwait, need]: [u32; 8]) -> Option<Task> {
        Some(Task {
            condition: condition_of(state, rwait, need)?,
            mother: TaskNumber(held_byte(mother)?),
            limit: held_byte(limit)?,
            dispatching: held_byte(disp)?,
            ecb: own_ecb(hasecb, ecb)?,
        })
    }
}

fn state_of(k: Condition) -> u32 {
    match k {
        Condition::Free => FREE,
        Condition::Ready | Condition::ResourceWait | Condition::EcbWait(_) => LIVE,
        Condition::Ended => ENDED,
    }
}

fn need_of(k: Condition) -> u32 {
    match k {
        Condition::EcbWait(n) => u32::from(n),
        _ => 0,
    }
}

// Only a live task waits, and in one way.
fn condition_of(state: u32, rwait: u32, need: u32) -> Option<Condition> {
    match (state, held_flag(rwait)?, held_byte(need)?) {
        (LIVE, false, 0) => Some(Condition::Ready),
        (LIVE, false, need) => Some(Condition::EcbWait(need)),
        (LIVE, true, 0) => Some(Condition::ResourceWait),
        (FREE, false, 0) => Some(Condition::Free),
        (ENDED, false, 0) => Some(Condition::Ended),
        _ => None,
    }
}

// A number is kept only of a task that has an ECB.
fn own_ecb(hasecb: u32, ecb: u32) -> Option<Option<EcbNumber>> {
    match (held_flag(hasecb)?, held_byte(ecb)?) {
        (true, n) => Some(Some(EcbNumber(n))),
        (false, 0) => Some(None),
        (false, _) => None,
    }
}
