// The certificate of an exchange.
//
// What goes in: an exchange. What comes out: its certificate, which has its least facts; the text
// of that, written point by point; and the shape of the exchange, which all its certificates have.
// It does not look at the certificates of others, nor know what their facts are used for.
#![tactic(auto)]

mod certified;
mod certified_text;
mod references;
mod shape;

pub use certified::certificate_of;
pub use certified_text::text_of_certificate;
pub use shape::shape_of;
