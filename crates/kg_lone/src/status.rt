//! The exit statuses of a run.

/// All was answered, or the end of the connection was due.
pub const DONE: u8 = 0;

/// The words name no command.
pub const OTHER_WORDS: u8 = 2;

/// The declaration was refused.
pub const REFUSED: u8 = 3;

/// The source failed.
pub const READ_FAULT: u8 = 4;

/// The sink failed.
pub const WRITE_FAULT: u8 = 5;

/// There was no memory.
pub const OUT_OF_MEMORY: u8 = 6;

/// A message was refused or cut.
pub const BROKEN: u8 = 7;
