// The rows of a layout.

/// Where the variables of a block stand: the word of the first, and how many there are.
#[derive(Clone, Copy)]
pub struct BlockRow {
    pub first: u32,
    pub variables: u32,
}

/// Where the records of a file stand: its number, the word at which they begin, how many there are,
/// the fields of one record, and the words from one record to the next.
#[derive(Clone, Copy)]
pub struct FileRow {
    pub number: u32,
    pub first: u32,
    pub size: u32,
    pub fields: u32,
    pub stride: u32,
}
