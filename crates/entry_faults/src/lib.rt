// Whether a job of an entry may fault, told from facts however they are kept.
//
// What goes in: an exchange with its flow table and its statements where they stand, facts that are
// known, and an entry. What comes out: whether a statement that is reached may fault, whether more
// signals may be sent than a job may send, and whether a statement that is reached leads back to
// itself. It does not know how facts are found or kept, nor what else a job does.
#![tactic(auto)]

mod asks;
mod divide;
mod exprs;
mod fault;
mod fields;
mod frame;
mod mark;
mod question;
mod round;
mod search;
mod sends;
mod statement;

pub use fault::may_fault;
pub use round::goes_round;
pub use sends::too_many_sends;
pub use statement::some_faults;
