use plex_num::Memory;

/// Why a text is no certificate's: its first line that is not as stated, counted from 1, or that
/// memory was refused.
#[derive(Clone, Copy, Debug, PartialEq, Eq)]
pub enum TextFault {
    /// The line is not as stated; or the text ends before it.
    BadText { line: u32 },
    Memory,
}

impl From<Memory> for TextFault {
    ghost use Rattle.std.specs.Prelude.{◌≡◌};
    ghost use Rattle.certificate_text.specs.declared.fault.TextFault.TheVariants.{Memory};

    ghost from_gives = { λ _ e. e ≡ Memory };

    fn from(_: Memory) -> TextFault {
        TextFault::Memory
    }
}
