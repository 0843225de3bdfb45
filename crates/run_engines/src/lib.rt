// What runs the jobs of a single run: the compiled code by the register machine, or the source
// itself by the source interpreter.
//
// What goes in: an exchange with its code or its tables, the start of a job and the stored words.
// What comes out: the words after the job, and what it left, which is what it means, whoever ran
// it; and how long a job of the machine was. A gate is called before and after each job. It knows
// neither the books nor the order of jobs, nor the loop that calls it.
#![tactic(auto)]

mod by_code;
mod by_source;
mod length;

pub use by_code::ByCode;
pub use by_source::BySource;
pub use length::length_of;
