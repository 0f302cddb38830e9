// Job scripts: requests as lines of text, answered line by line.
// Reading decides nothing about a request; `services` answers it.
#![tactic(auto)]

mod area_row;
mod beside;
mod dpmod;
mod ecb_row;
mod entry_row;
mod failure;
mod form;
mod hex;
mod input;
mod listing;
mod name;
mod number;
mod poke;
mod poke_form;
mod poking;
mod raw;
mod reports;
mod request;
mod saying;
mod script;
mod shows;
mod sizes;
mod task_row;
mod text;
mod turn;
mod word;

pub use script::{Ending, run};
