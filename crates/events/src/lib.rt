// WAIT, POST and CLEAR: the event control blocks, and the tasks that wait for them.
#![tactic(auto)]

pub mod clear;
pub mod ecb_list;
pub mod post;
pub mod wait;
