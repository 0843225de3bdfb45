// A line of a filter.

/// A line of a filter. It shows a job that agrees with all that it names: the block and the signal
/// of the job's entry, by their numbers in the exchange; the job's forlopp; the first and the last
/// job of a span, by their numbers from 1; and, where `faults` is set, that the job ended by a
/// fault.
#[derive(Clone, Copy, PartialEq, Eq)]
pub struct Show {
    pub block: Option<u32>,
    pub signal: Option<u32>,
    pub forlopp: Option<u64>,
    pub from: Option<u64>,
    pub upto: Option<u64>,
    pub faults: bool,
}
