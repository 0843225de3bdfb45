// What is kept of a certificate.
//
// What goes in: the summary of each entry of an exchange. What comes out: these, by the numbers of
// the entries. When such summaries are by a certificate of the exchange, and which facts such a one
// may have, is said here; that they are, those show who make them. It knows neither how
// certificates are written, nor how facts are found, nor what summaries are for.
#![tactic(auto)]

mod checked;

pub use checked::Checked;
