// GETMAIN and FREEMAIN: main storage, and the search for room in it.
#![tactic(auto)]

pub mod asked;
pub mod freemain;
pub mod getmain;
pub mod room;
