// Defines what each command answers.
//
// In: a command's arguments, and the contents of the files. Out: the one status and text that
// answer them, in terms of the definitions of the crates below; and the few types that answers are
// made of (`Answer`, `Stop`, `ProgramEnd`, the first fault of a file, `KnownExchange`). Nothing is
// run or read here: the crates that produce the answers build on this one.
#![tactic(auto)]

mod answer;
mod fault;
mod known;

pub use answer::{Answer, ProgramEnd, Stop};
pub use fault::{CertificateFault, FileFault, Rule, SourceFault, Which};
pub use known::KnownExchange;
