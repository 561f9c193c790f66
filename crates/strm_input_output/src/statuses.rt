//! The statuses of the programs. A number means the same in each that has it.
//!
//! Ours.

/// What was asked for was done, and its text is written whole.
pub const DONE: u8 = 0;

/// The words ask for nothing that the program does.
pub const USAGE: u8 = 1;

/// A line is not in the program's grammar.
pub const BAD_LINE: u8 = 2;

/// The input is over the program's limit.
pub const TOO_LONG: u8 = 3;

/// The source failed.
pub const READ_FAULT: u8 = 4;

/// The sink failed, or took nothing.
pub const WRITE_FAULT: u8 = 5;

/// A host end failed.
pub const HOST_FAILED: u8 = 6;

/// A host end broke its rules.
pub const HOST_BROKE: u8 = 7;

/// A step asked for an item that is none of its type.
pub const BAD_ITEM: u8 = 8;

/// An allocation was refused. Nothing is written.
pub const OUT_OF_MEMORY: u8 = 9;

/// A host end that was played recorded something else than the tape says.
pub const DIFFERS: u8 = 10;

/// The bytes are no tape.
pub const NOT_A_TAPE: u8 = 11;
