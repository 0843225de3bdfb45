ghost use Rattle.std.specs.Prelude.{◌≡◌};
ghost use Rattle.listing.specs.Statements.{fault_at};

use plex_num::Memory;
use thiserror::Error;

/// Why a text is no listing: its first faulty line, counted from 1, or that memory was refused.
#[derive(Debug, Drop, Error)]
pub enum ListFault {
    #[error("line {line}: no line of a listing")]
    BadLine { line: u32 },
    #[error("line {line}: an operand is out of its range")]
    BadOperand { line: u32 },
    #[error("memory was refused")]
    Memory,
}

/// What is wrong with a line: its form, or an operand that is out of its range.
#[derive(Clone, Copy)]
pub enum LineFault {
    Form,
    Operand,
}

impl LineFault {
    /// The same as what is wrong with the text.
    pub fn at(self, line: u32) -> ListFault
        ensures { result ≡ fault_at self line }
    {
        match self {
            LineFault::Form => ListFault::BadLine { line },
            LineFault::Operand => ListFault::BadOperand { line },
        }
    }
}

impl From<Memory> for ListFault {
    ghost use Rattle.std.specs.Prelude.{◌≡◌};
    ghost use Rattle.listing.specs.declared.fault.ListFault.TheVariants.{Memory};

    ghost from_gives = { λ _ e. e ≡ Memory };

    fn from(_: Memory) -> ListFault {
        ListFault::Memory
    }
}
