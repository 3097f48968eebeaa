//! The limits of a job and of what the program reads. Every contract cites them by these names.

/// Cores on the bus, from 1 on.
pub const MAX_CORES: u32 = 16;

/// The room of a list with at most one entry for each core.
pub const CORES_ROOM: usize = MAX_CORES as usize;

/// Instructions that a core takes in a slot at most, from 1 on.
pub const MAX_QUANTUM: u32 = 256;

/// Words of a line: a power of two from the least to the greatest, so 4, 8 or 16.
pub const MIN_LINE_WORDS: u32 = 4;

pub const MAX_LINE_WORDS: u32 = 16;

/// The room of a list with the words of one line.
pub const LINE_ROOM: usize = MAX_LINE_WORDS as usize;

/// Sets of a cache: a power of two from 1 on.
pub const MAX_SETS: u32 = 256;

/// Lines of a set, from 1 on.
pub const MAX_WAYS: u32 = 8;

/// Bytes of memory.
pub const MIN_MEMORY: u32 = 64;

pub const MAX_MEMORY: u32 = 1_048_576;

/// Words of a core's text.
pub const MAX_TEXT_WORDS: u32 = 16_384;

/// Slots of a job, from 0 on.
pub const MAX_SLOTS: u32 = 1_000_000;

/// Bytes of an input file.
pub const MAX_FILE_BYTES: u32 = 16_777_216;

/// Accesses that a job may ask to be kept: slots times cores times quantum.
pub const MAX_TOUCHES: u32 = 4_000_000;

/// Threads that work on a job, from 1 on.
pub const MAX_WORKERS: u32 = 16;

/// Commands of a debugger script.
pub const MAX_COMMANDS: u32 = 10_000;
