// The refusal numbers, named once. An answer's `refusal` is ACCEPTED or one of the others; a
// comment says when each is given. `specs/Refusals.antt` has the same names for the definitions.
#![tactic(auto)]

pub const ACCEPTED: u8 = 0;

// A list, a buffer or the rest of a buffer is too short.
pub const NO_ROOM: u8 = 1;

// A character is no upper-case hexadecimal digit, or a line has no line feed.
pub const NOT_HEX: u8 = 2;

// A line or a frame has not the shape of one.
pub const MALFORMED: u8 = 3;

// No device answered the reset.
pub const NO_PRESENCE: u8 = 4;

// The CRC of a code or of a scratchpad is wrong.
pub const WRONG_CRC: u8 = 5;

// All nine scratchpad bytes are zero, as on a wire that is stuck low.
pub const ALL_ZERO: u8 = 6;

// The family is not one of ours, or a configuration is not in its stored form.
pub const WRONG_KIND: u8 = 7;

// The code is already on the bench, in the store of settings or in the list of readings.
pub const DUPLICATE: u8 = 8;

// The bench, the store of settings or the list of readings has no place left.
pub const BENCH_FULL: u8 = 9;

// A line-powered device is busy and holds the wire.
pub const WIRE_BUSY: u8 = 10;

// A temperature is outside -55 to +125 degrees.
pub const OUT_OF_RANGE: u8 = 11;

// The code is not on the bench, or not in the store of settings.
pub const NOT_FOUND: u8 = 12;

// The bytes read back differ, or the device is not busy with what is to be finished.
pub const MISMATCH: u8 = 13;

// A search pass holds a triple that no device can give.
pub const BAD_TRIPLE: u8 = 14;

// A pulse or a gap of the line has none of the lengths that the rule knows.
pub const BAD_PULSE: u8 = 15;

// The time of an edge is not above that of the edge before it.
pub const NOT_LATER: u8 = 16;

// The address pins of a device that has them are over 15.
pub const WRONG_PINS: u8 = 17;

// A change names a version of settings that is not the current one.
pub const STALE_VERSION: u8 = 18;

// Settings are at the last version that there is, so that no change can follow.
pub const VERSIONS_SPENT: u8 = 19;

// The count bytes of a scratchpad in half degrees cannot be: byte 7 is zero, or byte 6 above it.
pub const WRONG_COUNTS: u8 = 20;

// A row of comma-separated text has not the form of one, or its reading is none that the family has.
pub const BAD_ROW: u8 = 21;

// The bytes of a table are not those that the records of a bench pack to.
pub const NOT_A_TABLE: u8 = 22;
