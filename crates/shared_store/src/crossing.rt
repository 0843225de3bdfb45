// Which types threads hand to one another, and which they share.
use crate::seat::{JobSeat, RootSeat};
use crate::store::SharedStore;

/// Can be called for what one thread may hand to another.
fn moves<T: Send>() {}

/// Can be called for what several threads may use at once, each by a shared reference.
fn is_shared<T: Sync>() {}

/// A store may be handed to another thread, and several may step in it at once.
pub fn store_crosses() {
    moves::<SharedStore>();
    is_shared::<SharedStore>();
}

/// The seat of a loan may be handed to another thread; one thread has it at a time.
pub fn job_seat_crosses() {
    moves::<JobSeat>();
}

/// The root's seat may be handed to another thread; one thread has it at a time.
pub fn root_seat_crosses() {
    moves::<RootSeat>();
}
