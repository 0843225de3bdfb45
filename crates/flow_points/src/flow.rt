use crate::fact::{Slot, Value};
use plex_num::Seq;

/// Where the values of a slot come from over a flow.
#[derive(Clone, Copy, PartialEq, Eq, PartialOrd, Ord)]
pub enum Source {
    /// The values of a slot before the statement.
    Of(Slot),
    /// One value.
    Is(Value),
    /// One more than the number of callers that wait before the statement, where fewer than eight
    /// do.
    Deeper,
    /// No value.
    Nothing,
}

/// How the values of all slots go along a flow. An activation begins with temporaries that are 0,
/// and with entry values that are 0 beyond those of its signal.
#[derive(Drop)]
pub enum Passing {
    /// All temporaries, entry values, DEPTH and AWAITS as they are.
    Kept,
    /// The same, but a temporary gets other values.
    Sets { temp: u8, source: Source },
    /// The same, but these temporaries get the entry values; of one that stands twice the last
    /// counts.
    Takes { temps: Seq<u8> },
    /// The same, but these temporaries get the values of the answer; of one that stands twice the
    /// last counts.
    Retrieves { temps: Seq<u8> },
    /// An activation begins with these values, and the callers that wait go on waiting.
    Begins { values: Seq<Source> },
    /// An activation begins with so many of the entry values.
    Passes { count: u8 },
    /// An activation begins with these values, and the sender waits for the answer, which is a
    /// signal by its number.
    Calls { values: Seq<Source>, answer: u32 },
    /// The caller that waits gets these values of the answer.
    Answers { values: Seq<Source> },
}
