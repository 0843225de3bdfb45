// How long the parts of code are that jumps pass over, and which locals loops have.

/// What compares register 0 with a number.
pub const COMPARE_LENGTH: u32 = 3;
/// What begins a turn of a loop.
pub const TURN_LENGTH: u32 = 2;
/// What comes after a turn of a loop.
pub const NEXT_LENGTH: u32 = 7;
/// What keeps the bounds of a loop.
pub const BOUNDS_LENGTH: u32 = 4;
/// What looks at the next record of a file.
pub const LOOK_LENGTH: u32 = 4;
/// What tests a record's field, and leaves the search with it.
pub const FOUND_LENGTH: u32 = 4;
/// What goes back to the head of a search.
pub const AGAIN_LENGTH: u32 = 3;

/// The local of the number of the outermost loop; that of its last number follows, and then those
/// of the next loop.
pub const FIRST_LOOP_LOCAL: u8 = 24;
