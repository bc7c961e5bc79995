// Where sets lie in the scratch that compiling is lent.
use crate::Set;
use scope::Machine;

// How many bytes the byte set of a position has.
pub const BYTE_SET: usize = Machine::BYTES / 8;

// The bytes hold the byte set of each position, then the image of a room.
pub const IMAGE_AT: usize = Machine::POSITIONS * BYTE_SET;

// The words hold First and the follow set of each position, then the reached sets: the number of the first of these.
pub const SETS_AT: usize = Set::BITS;

// While a text is read, First has the number 0, which no position has, and Last that of the first reached set.
pub const FIRST_AT: usize = 0;

pub const LAST_AT: usize = SETS_AT;

// How many words reading uses.
pub const READ_WORDS: usize = LAST_AT * Machine::SET_WORDS + Machine::SET_WORDS;
