use flow_points::Value;
use plex_num::Level;

/// Why two jobs never run together, the first before the later one.
#[derive(Clone, Copy, PartialEq, Eq)]
pub enum Conflict {
    /// Both access the variable, and one writes it.
    Variable {
        number: u32,
    },
    /// Both access the field, one writes it, and these selectors may name one record.
    Field {
        number: u32,
        first: Value,
        later: Value,
    },
    /// One seizes records of the file, and the other one seizes or frees records of it.
    Seizing {
        file: u32,
    },
    /// The first may send to a level above that of the later one.
    Above {
        level: Level,
    },
}

/// Whether two jobs may run together: never, with the first conflict in order, or where the tests
/// of the pair hold.
#[derive(Clone, Copy, PartialEq, Eq)]
pub enum Verdict {
    Never(Conflict),
    Tests,
}

/// What must hold of two jobs that run together, the first before the later one. `first` and
/// `later` are places in the values with which they start, from 0. In this order, each by its
/// numbers.
#[derive(Clone, Copy, PartialEq, Eq, PartialOrd, Ord)]
pub enum Test {
    /// These two values differ.
    Differ { first: u8, later: u8 },
    /// This value of the first is not the number.
    FirstNot { first: u8, value: u32 },
    /// This value of the later one is not the number.
    LaterNot { later: u8, value: u32 },
    /// The first is of a forlopp.
    InForlopp,
    /// The first holds no record of the file as it starts.
    HoldsNo { file: u32 },
}
