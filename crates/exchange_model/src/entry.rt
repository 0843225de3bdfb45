/// An ENTER of a buffered signal, at which jobs start: its block, its signal and its point.
#[derive(Clone, Copy, PartialEq, Eq)]
pub struct Entry {
    pub block: u32,
    pub signal: u32,
    pub point: u32,
}

/// A point's block, and the line of its first token.
#[derive(Clone, Copy, PartialEq, Eq)]
pub struct PointInfo {
    pub block: u32,
    pub line: u32,
}

/// What a stored word is of: a variable of a block, a field of a record, or the mark of a record of
/// a forlopp file, which is 1 where the record is seized. Files are numbered through the exchange,
/// records and fields in their file.
#[derive(Clone, Copy, PartialEq, Eq)]
pub enum Cell {
    Variable { block: u32, index: u32 },
    Field { file: u32, number: u32, field: u32 },
    Mark { file: u32, number: u32 },
}
