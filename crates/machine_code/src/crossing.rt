// Which types threads hand to one another and share.
use crate::code::Code;
use crate::permit::Permit;

/// Can be called for what one thread may hand to another, and several may share.
fn crosses<T: Send + Sync>() {}

/// Code may cross threads.
pub fn code_crosses() {
    crosses::<Code>();
}

/// A permit may cross threads.
pub fn permit_crosses() {
    crosses::<Permit>();
}
