// A block, and how those after it are numbered.
use exchange_model::Block;

/// A block with numbers for names. Statements and files are numbered through the exchange, from the
/// numbers with which the block begins; fields and labels are places in their lists.
#[derive(Drop)]
pub struct Typed {
    pub block: Block,
    /// The numbers with which the next block begins.
    pub next: First,
}

/// The numbers of the first statement and of the first file of a block.
#[derive(Clone, Copy, PartialEq, Eq)]
pub struct First {
    pub point: u32,
    pub file: u32,
}
