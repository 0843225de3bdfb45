// Which types threads hand to one another and share.
use crate::layout::Layout;

/// Can be called for what one thread may hand to another, and several may share.
fn crosses<T: Send + Sync>() {}

/// A layout may cross threads.
pub fn layout_crosses() {
    crosses::<Layout>();
}
