// Tests of what contracts do not state: on small exchanges, which jobs may run in parallel and
// which events are allowed; and that public calls which no command makes give an answer.
//
// The crate exports nothing. The tests build each exchange from its text, so the crate depends on
// those from the lexer to the core.
#![tactic(auto)]

#[cfg(test)]
mod calls;
#[cfg(test)]
mod events;
#[cfg(test)]
mod given;
#[cfg(test)]
mod lent;
#[cfg(test)]
mod pairs;
#[cfg(test)]
mod permits;
#[cfg(test)]
mod texts;
