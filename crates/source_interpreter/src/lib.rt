// The source interpreter: one job, run by what its statements mean.
//
// What goes in: an exchange, stored words, and the start of a job. What comes out: the job's end,
// with what it sent and which records it holds, and the words as they stand then. What remains to
// be done is kept as places in the exchange's own lists, so that no statement is copied. It knows
// no address and no instruction.
#![tactic(auto)]

mod cases;
mod control;
mod data;
mod frame;
mod job;
mod place;
mod records;
mod run;
mod signals;
mod step;
mod stop;
mod text;
mod value;
mod view;
mod words;
mod work;

pub use cases::Cases;
pub use job::plain_job;
