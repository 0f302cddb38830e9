// A place of the queue as raw fields, and back.
use crate::raw::{Row, held_byte, held_flag, held_half};
use kinds::{NameOffset, Slot, TaskNumber};

impl Row<3> for Slot {
    fn raw(self) -> [u32; 3] {
        [
            u32::from(self.task.0),
            u32::from(self.exclusive),
            u32::from(self.name.0),
        ]
    }

    fn held([task, excl, name]: [u32; 3]) -> Option<Slot> {
        Some(Slot {
            task: TaskNumber(held_byte(task)?),
            exclusive: held_flag(excl)?,
            name: NameOffset(held_half(name)?),
        })
    }
}
