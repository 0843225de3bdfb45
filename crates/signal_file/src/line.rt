use plex_num::Values;

/// A signal line of a signal file: its number in the file, from 1; how many jobs must have ended
/// before it arrives, if others wait; the entry at which its job starts; the values of its signal;
/// and where its forlopp comes from.
#[derive(Drop)]
pub struct Line {
    pub number: u32,
    pub after: u32,
    pub entry: u32,
    pub values: Values,
    pub kind: LineKind,
}

/// Where the forlopp of a line's job comes from.
#[derive(Clone, Copy, PartialEq, Eq)]
pub enum LineKind {
    /// `NEW`: the next number is drawn.
    Fresh,
    /// `NONE`: the job is in no forlopp.
    Bare,
    /// `AS i`: the forlopp of the line with this number.
    Same { line: u32 },
}
