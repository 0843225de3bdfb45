// The first fault of a text.
//
// A text is a list of events, each with its place in the list. A rule is a test of an event with
// what is known at its place: of the events before it, and of the whole text. The first fault is
// the one at the first event that breaks a rule, and at that event the rule of the lowest number.
// Definitions and lemmas alone, for any kind of events and any rules; specs/First.antt has the
// words, proofs/First.antt what a pass over the events needs: it looks at each event once, with the
// rules in the order of their numbers. It knows nothing of signals, blocks or names.
#![tactic(auto)]

pub mod laws;
