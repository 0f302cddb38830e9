// A storage area as raw fields, and back.
use crate::raw::{Row, held_byte};
use kinds::{Address, Area, TaskNumber};

impl Row<4> for Area {
    fn raw(self) -> [u32; 4] {
        [
            self.start.0,
            self.size,
            u32::from(self.subpool),
            u32::from(self.owner.0),
        ]
    }

    fn held([address, length, subpool, owner]: [u32; 4]) -> Option<Area> {
        Some(Area {
            start: Address(address),
            size: length,
            subpool: held_byte(subpool)?,
            owner: TaskNumber(held_byte(owner)?),
        })
    }
}
