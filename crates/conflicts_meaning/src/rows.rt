// The rows of the text.
use flow_points::Value;

/// How many bytes are told of entries and pairs at most.
pub const MOST_TOLD: usize = 64_000_000;

/// Two entries by their numbers, of jobs of which the first comes before the later one in the
/// single run.
#[derive(Clone, Copy, PartialEq, Eq)]
pub struct EntryPair {
    pub first: usize,
    pub later: usize,
}

/// What is told in one go: the points of an entry, or what clashes of a pair.
#[derive(Clone, Copy)]
pub enum Section {
    Entry { number: usize },
    Pair { pair: EntryPair },
}

/// A point whose statement gives an access of an entry, or sends to a level, by its number among
/// those of the entry: the accesses in their order, and behind them the levels.
#[derive(Clone, Copy, PartialEq, Eq, PartialOrd, Ord)]
pub struct GivenAt {
    pub number: usize,
    pub point: u32,
}

/// Why jobs of two entries never run together, as it is listed: variables, fields, files and
/// levels in this order, each by its numbers.
#[derive(Clone, Copy, PartialEq, Eq, PartialOrd, Ord)]
pub enum Clash {
    Variable {
        number: u32,
    },
    Field {
        number: u32,
        first: Value,
        later: Value,
    },
    Seizing {
        file: u32,
    },
    /// The level to which the first may send: 0 for A, 1 for B, 2 for C, 3 for D.
    Above {
        level: u8,
    },
}

/// An access of the first entry that clashes with one of the later, each by its number; or a level
/// to which the first may send, and then `later` is 0. In the order of the clashes, then of the
/// numbers.
#[derive(Clone, Copy, PartialEq, Eq, PartialOrd, Ord)]
pub struct ClashRow {
    pub clash: Clash,
    pub first: usize,
    pub later: usize,
}
