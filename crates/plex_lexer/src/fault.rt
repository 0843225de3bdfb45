use thiserror::Error;

/// Why a text has no tokens: its first bad place, as an offset (the number of bytes before it) and
/// a line (from 1), or that memory was refused.
#[derive(Debug, Drop, Error)]
pub enum LexFault {
    #[error("line {line}: a byte that begins no token")]
    BadByte { offset: u32, line: u32 },
    #[error("line {line}: a number that is too large or has too many digits")]
    BadNumber { offset: u32, line: u32 },
    #[error("line {line}: a name of over 31 bytes")]
    LongName { offset: u32, line: u32 },
    #[error("memory was refused")]
    Memory,
}
