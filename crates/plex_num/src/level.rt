/// A job buffer: A has the highest priority.
#[derive(Clone, Copy, PartialEq, Eq)]
pub enum Level {
    A,
    B,
    C,
    D,
}
