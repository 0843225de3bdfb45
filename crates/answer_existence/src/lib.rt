// Theorems about the program's answers: an answer exists for all arguments and files.
//
// In: the definitions of the answers. Out: theorems, as public functions without a body. There is
// no code, and nothing here says how an answer is found.
#![tactic(auto)]

mod laws;

pub use laws::{an_answer_comes, states_are_carried};
