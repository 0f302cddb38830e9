// Numbers made of their kinds by the checked constructors.
use kinds::{Address, TaskNumber};

// The task of this number; where none has it, no task, which is 0. Where an entry has no task the tables are not sound,
// and the hits that are written say so.
pub(crate) fn task(n: u32) -> TaskNumber {
    TaskNumber::new(n).unwrap_or(TaskNumber(0))
}

// An address past the region stays past it: no area is sound there.
pub(crate) fn address(n: u32) -> Address {
    Address::new(n).unwrap_or(Address(Address::HIGHEST + 1))
}
