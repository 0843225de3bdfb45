use plex_num::Values;

/// How many signals the signal file and the table may have together, where the table has any.
pub const MOST_LINES: u64 = 1_000_000;

/// A line of a table, which is a signal that comes again and again: the line's number in the table,
/// from 1; how many jobs more must have ended before it comes again; how many must have ended
/// before it comes first, if others wait; how often it comes; the entry at which its jobs start;
/// the values of its signal; and whether each of its jobs draws a forlopp.
#[derive(Drop)]
pub struct Period {
    pub number: u32,
    pub every: u32,
    pub from: u32,
    pub times: u32,
    pub entry: u32,
    pub values: Values,
    pub fresh: bool,
}
