// What is worth a loan, a thread and a wake-up, as the dispatcher counts it.

/// Jobs of so many instructions in all are worth a wake-up.
pub const WAKE: u64 = 60_000;

/// Jobs that make fewer instructions in the mean are short: as many workers as half of those that
/// may fly are enough.
pub const SHORT: u64 = 60_000;

/// Jobs that make fewer are very short: a quarter of those that may fly is enough.
pub const VERY_SHORT: u64 = 15_000;

/// In the time of so many instructions the dispatcher lets one job set out and another one retire.
pub const FED: u64 = 3_000;

/// A worker is woken where so many jobs wait, whatever they are worth; where few may fly, half of
/// those are enough.
pub const MOST_WAIT: u64 = 8;

/// So many jobs that wait are enough for a thread.
pub const ENOUGH: u64 = 2;

/// After so many jobs of an entry that flew with nobody beside them the next ones rest: they run
/// alone.
pub const LONELY: u32 = 4;

/// How many jobs of an entry rest at first, and twice as many each time.
pub const FIRST_REST: u64 = 16;

/// How many rest at most.
pub const LONGEST_REST: u64 = 1024;

/// What a test of two jobs costs, in instructions, about.
pub const TEST: u64 = 12;

/// The part of a mean that a new job makes.
pub const PART: u64 = 64;

/// A mean of fewer instructions is taken for so many where it tells what a job counts for at most.
pub const LEAST_MEAN: u64 = 1_000;
