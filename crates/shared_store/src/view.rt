// What a seat knows, as contracts see it. No value of these types is ever made.
use job_types::{JobStart, Touch};
use machine_code::Permit;
use plex_num::Seq;

/// A loan, as the root lists it: its number, the start and permit that it was made for, and the
/// root's values when it was made.
pub struct Lent {
    pub number: u64,
    pub start: JobStart,
    pub permit: Permit,
    pub base: Seq<u32>,
}

/// What the root knows: a value for each cell, and the loans that have not come back.
pub struct Top {
    pub values: Seq<u32>,
    pub loans: Seq<Lent>,
}

/// What the seat of a loan knows: the loan, and the loads and stores that the seat has made, in
/// order.
pub struct Hold {
    pub lent: Lent,
    pub touches: Seq<Touch>,
}

/// What a seat of the table is: the root, a loan, or a loan that came back.
pub enum View {
    Root(Top),
    Loan(Hold),
    Spent,
}
