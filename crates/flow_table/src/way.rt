use crate::points::Points;
use flow_points::Passing;

/// Where a way leads to: to these points, or to each RETRIEVE of an answer, which is a signal by
/// its number.
#[derive(Drop)]
pub enum Ends {
    Points(Points),
    Retrieves(u32),
}

/// A way from a statement: how values go along, and where to.
#[derive(Drop)]
pub struct Way {
    pub how: Passing,
    pub ends: Ends,
}
