// What a text means, as a definition: the exchange of its tree, or its first fault. Laws: a text
// that breaks no rule means an exchange.
#![tactic(auto)]

mod fault;
pub mod laws;

pub use fault::TextFault;
