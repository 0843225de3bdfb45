// The two texts of a load: an exchange of eight blocks in a ring, and a signal file that begins
// calls in it.
//
// What goes in: the number of calls. What comes out: the exchange text and the signal file, byte
// for byte. Who runs a load stands on the contracts of `load_exchange` and `load_signals`, which
// say each text as a function of the number. It knows no sentence and no rule: the texts are read
// as any other.
#![tactic(auto)]

mod exchange;
mod patterns;
mod signals;
#[cfg(test)]
mod tests;

pub use exchange::load_exchange;
pub use signals::load_signals;
