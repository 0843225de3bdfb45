// Laws of certificates: an exchange has one, and whatever is given as one is judged.
//
// What goes in are definitions: the text of a certificate, the certificate of an exchange, and why
// another one is refused. What comes out are laws, as public functions without a body. There is no
// code, and nothing is known of how any of it is found.
#![tactic(auto)]

mod laws;

pub use laws::{certificates_are_judged, certificates_come, texts_are_read};
