// Theorem about the program's answers: the answer to given arguments and files is unique.
//
// In: the definitions of the answers. Out: the theorem, as a public function without a body. There
// is no code, and nothing here says how an answer is found.
#![tactic(auto)]

mod laws;

pub use laws::answers_are_one;
