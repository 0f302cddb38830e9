// The sizes that are the script's own, each once; `specs/Sizes.antt` has those that contracts and proofs name. Those of
// the tables stand with the kinds that they bound.
use kinds::Name;

// What is read or written at once.
pub(crate) const BLOCK: usize = 65536;

// A longer line is not readable, whatever it holds.
pub(crate) const LONGEST_LINE: usize = 16383;

// A line that asks for a longer codes area is not readable.
pub(crate) const MOST_CODES: usize = 64;

// A line that asks for room for more items of a report is not readable.
pub(crate) const MOST_ROOM: usize = u8::MAX as usize;

// A line with more names or ECBs is not readable.
pub(crate) const MOST_LISTED: u32 = 20;

// The digits of a number.
pub(crate) const MOST_DIGITS: usize = 10;

// A minor part's bytes as a line gives or says them; a name keeps fewer.
pub(crate) const HIGHEST_LENGTH: usize = 300;

// The number of the last line that is read.
pub(crate) const HIGHEST_LINE: u64 = u64::MAX - 1;

// The digits of a major part, and of a minor part that is given.
pub(crate) const MAJOR_DIGITS: usize = 2 * Name::MAJOR;

pub(crate) const MOST_GIVEN: usize = 2 * HIGHEST_LENGTH;

// A line that pokes more bytes of the name area is not readable.
pub(crate) const MOST_POKED: usize = 300;

// The bytes of a minor part in a poke of an entry, which keeps none any more.
pub(crate) const POKED_MINOR: usize = 44;
