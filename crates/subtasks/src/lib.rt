// ATTACH, DETACH, END and ABEND: a task and those below it.
#![tactic(auto)]

pub mod abend;
pub mod attach;
pub mod detach;
pub mod end;
