/// Why a job could not go on.
#[derive(Clone, Copy, PartialEq, Eq)]
pub enum Fault {
    /// A pointer is not below the size of its file.
    Pointer,
    /// A value does not fit the width of its variable.
    Range,
    /// A division by 0.
    Divide,
    /// The record is not in the job's chain.
    NotOwn,
    /// The job stands in no forlopp.
    NoForlopp,
    /// The chain holds all the records that it can.
    Chain,
    /// A block ended in a way that does not fit how it was entered.
    BadEnd,
    /// Too many calls wait for their answers.
    Depth,
    /// The job sent more signals than its outbox holds.
    Sends,
    /// The job made more statements than one job may make.
    Budget,
}
