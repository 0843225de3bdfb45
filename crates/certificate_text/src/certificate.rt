use flow_points::Fact;
use plex_num::Seq;

/// How large an exchange is: its signals, blocks, points, cells and entries, and its SENDs and
/// TRANSFERs with a held reference.
#[derive(Clone, Copy, Debug, PartialEq, Eq)]
pub struct Shape {
    pub signals: u32,
    pub blocks: u32,
    pub points: u32,
    pub cells: u32,
    pub entries: u32,
    pub references: u32,
}

/// Facts of an exchange of a shape.
#[derive(Drop)]
pub struct Certificate {
    pub shape: Shape,
    pub facts: Seq<Fact>,
}
