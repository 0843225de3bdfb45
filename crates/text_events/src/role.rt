// What names stand for, and what they are to stand for.

/// What a name stands for in its block; each kind is numbered from 0, in the order of the text.
#[derive(Clone, Copy, Debug, PartialEq)]
pub enum Meaning {
    Variable(u32),
    Temporary(u32),
    File { file: u32, forlopp: bool },
    /// A field, by its place in its file.
    Field { file: u32, field: u32 },
    Label(u32),
}

/// What a name has to stand for where it is used.
#[derive(Clone, Copy, Debug, PartialEq)]
pub enum Need {
    /// A variable or a temporary.
    Value,
    Temporary,
    Field,
}

/// How the signal stands there that a name names.
#[derive(Clone, Copy, Debug, PartialEq)]
pub enum Role {
    /// After RECEIVE or ENTER.
    Received,
    /// After SEND, and whether a REFERENCE follows.
    Sent { reference: bool },
    /// After TRANSFER.
    Transferred,
    /// After RETRIEVE or RETURN.
    Answer,
}
