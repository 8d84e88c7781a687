//! The limits of a run.

/// The most bytes of a line.
pub const LINE_BYTES: usize = 32_768;

/// The most bytes of an input.
pub const INPUT_BYTES: usize = 8_388_608;

/// The most lines of an input, and of a generated schedule.
pub const LINES: u64 = 200_000;

/// The most steps.
pub const STEPS: u64 = 2_000_000;

/// The most bytes that are taken at once.
pub const TAKE_BYTES: usize = 4096;
