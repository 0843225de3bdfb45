// Which types threads hand to one another and share.
use crate::exchange::Exchange;

/// Can be called for what one thread may hand to another, and several may share.
fn crosses<T: Send + Sync>() {}

/// An exchange may cross threads. A function of a crate above that needs it names these two lemmas
/// too.
pub fn exchange_crosses() {
    crosses::<Exchange>();
}
