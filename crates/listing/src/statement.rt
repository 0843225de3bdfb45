use machine_code::Op;

/// What a line between the first and the last says.
pub enum Statement {
    /// The entry that is next begins at this address.
    Entry(u32),
    /// The instruction that is next.
    Instruction(Op),
}
