// What the summaries and the certificate of an exchange are, and which certificates are taken.
//
// What goes in: nothing, since it has definitions and laws alone. What comes out: what the
// summaries and the certificate of an exchange are, by its least facts; which shape it has; and
// which certificates are one of it, with the reason why any other one is refused. It finds no facts
// and looks at no certificate: crates that do, and those that only say what comes of it, stand on
// it.
#![tactic(auto)]

mod fault;
mod laws;

pub use fault::CertFault;
pub use laws::refused_is_not_closed;
