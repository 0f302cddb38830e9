// The name area: each name in use once, packed, in the order of first entries; entries point to it.
#![tactic(auto)]

pub mod append;
pub mod area;
pub mod lawful;
pub mod packing;
pub mod points;
pub mod scanning;

pub use area::NameArea;
pub use packing::repack;
pub use scanning::scan;
