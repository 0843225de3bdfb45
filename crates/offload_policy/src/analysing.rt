// When the exchange's own certificate is made, which costs an analysis.

/// How many looks at facts the first analysis of a run may take. That is a sixtieth of a second or
/// so with all that belongs to it.
pub const FIRST_LOOKS: usize = 16_384;

/// So many analyses are tried at most, each with twice the looks of the one before: the last one
/// with eight million, which take some two seconds and 200 megabytes.
pub const ROUNDS: u32 = 10;

/// How many instructions the jobs of a run must have made for each look of a further analysis: four
/// times as many as are made in the time of a look.
pub const STEPS_FOR_LOOK: u64 = 1000;
