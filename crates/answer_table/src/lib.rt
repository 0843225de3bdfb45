// Where answers are retrieved in an exchange, and from where they return.
//
// What goes in: an exchange. What comes out: for each point the answer that its statement awaits,
// and for each signal the points of the RETURNs that give it as an answer; and whether a way gives
// an answer. The search for least facts and the look for what a certificate lacks both stand on it,
// so that neither waits for the other. It knows no facts of an entry.
#![tactic(auto)]

mod answers;

pub use answers::{AnswerTable, answers_of, awaited_in, gives_answer};
