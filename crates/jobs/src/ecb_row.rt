// An event control block as raw fields, and back.
use crate::raw::{Row, held_byte, held_flag};
use kinds::{Ecb, TaskNumber};

impl Row<4> for Ecb {
    fn raw(self) -> [u32; 4] {
        [
            u32::from(self.waiter.0 != 0),
            u32::from(self.complete),
            self.code,
            u32::from(self.waiter.0),
        ]
    }

    // The waiter and the wait bit are one.
    fn held([wait, complete, code, waiter]: [u32; 4]) -> Option<Ecb> {
        if held_flag(wait)? != (waiter != 0) {
            return None;
        }
        Some(Ecb {
            waiter: TaskNumber(held_byte(waiter)?),
            complete: held_flag(complete)?,
            code,
        })
    }
}
