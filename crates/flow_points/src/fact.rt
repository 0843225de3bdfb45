/// What a fact speaks of before a point: a temporary of the block; an entry value; at a RETRIEVE a
/// value of the answer; how many callers wait; and which answer the last of them awaits, which is 0
/// for none and else 1 plus the signal's number. Temporaries and values are numbered from 0. In
/// order: temporaries, entry values, values of an answer, DEPTH, AWAITS.
#[derive(Clone, Copy, PartialEq, Eq, PartialOrd, Ord)]
pub enum Slot {
    Temp(u8),
    Given(u8),
    Answered(u8),
    Depth,
    Awaits,
}

/// What a slot may have: a value that the job started with, by its place in the job's values from
/// 0; a number; or any number. In this order, each by its number.
#[derive(Clone, Copy, PartialEq, Eq, PartialOrd, Ord)]
pub enum Value {
    Arg(u8),
    Const(u32),
    Any,
}

/// A job of the entry may have this value in the slot, before the statement at the point. Facts are
/// in the order of their entries, then of their points, slots and values.
#[derive(Clone, Copy, PartialEq, Eq, PartialOrd, Ord)]
pub struct Fact {
    pub entry: u32,
    pub point: u32,
    pub slot: Slot,
    pub value: Value,
}
