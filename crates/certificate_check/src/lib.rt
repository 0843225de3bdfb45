// Whether a certificate is one of an exchange, and what it says of the entries then.
//
// What goes in: an exchange and a certificate, with facts in any order. What comes out: the summary
// of each entry by them, where the certificate has the shape of the exchange, no strange fact, and
// all facts that one rule gives from its own; else the first of these that is not so. Of the
// certificate of the exchange itself, which has its least facts, the same comes of the exchange
// alone, with no look for faults. The facts are not kept. It does not know how certificates are
// written, nor what summaries are for.
#![tactic(auto)]

mod deciding;
mod own;

pub use deciding::check;
pub use own::{Own, keep_own_if_few};
