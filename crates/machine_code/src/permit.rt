use plex_num::Seq;

/// The words first + i * stride, for each i below count.
#[derive(Clone, Copy, PartialEq, Eq)]
pub struct Span {
    pub first: u32,
    pub count: u32,
    pub stride: u32,
}

/// The words that a job may read, and those that it may write. A word that it may write it may read
/// too.
#[derive(Drop)]
pub struct Permit {
    pub reads: Seq<Span>,
    pub writes: Seq<Span>,
}
