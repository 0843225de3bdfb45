// What the seats of a book know, as contracts see it. No value of these types is ever made.
use shared_store::Lent;

/// What a ticket claims: its number, and the loan that it was written for.
pub struct Claim {
    pub number: u64,
    pub loan: Lent,
}

/// What a seat of the book's table is: the pen, which knows how many tickets were written; a
/// ticket; two tickets that met; or a ticket that was given up.
pub enum Page {
    Writes(u64),
    Claims(Claim),
    Meets(Claim, Claim),
    Spent,
}
