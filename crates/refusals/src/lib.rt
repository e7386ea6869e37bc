// The refusals of all calls by their numbers, and by the names that include/lensember.h has for them. Their order is in specs/.
#![tactic(auto)]

ghost use Rattle.refusals.specs.Means.{FirstDecides};

// Not from 1 to 16 chunks, a buffer that has not the exact length, or no such ear.
pub const SHAPE: u64 = 1;

// The records are not those of any pool.
pub const DAMAGED: u64 = 2;

// More bytes than the largest run has.
pub const TOO_BIG: u64 = 3;

// No free slot of the class, and no long enough gap.
pub const NO_ROOM: u64 = 4;

// No block or slot starts at the place.
pub const NO_BLOCK: u64 = 5;

// A slot starts there, and is free.
pub const FREE_SLOT: u64 = 6;

// Less room is lent than the answer may need.
pub const SHORT_ROOM: u64 = 7;

// A log ends inside a field, or before its end field.
pub const CUT_LOG: u64 = 8;

// A field of a log is unknown, of a wrong length, or out of its turn.
pub const BAD_FIELD: u64 = 9;

// A line of the vendor's text is none of a field that is due.
pub const BAD_LINE: u64 = 13;

// The first check that does not hold decides.
pub fn first_decides() -> bool
    ensures { FirstDecides }
{
    true
}
