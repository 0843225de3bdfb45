// The kinds of operands.
ghost use Rattle.std.specs.Prelude.{◌≡◌, ◌<◌, ◌≤◌, ℕ, Some, [], ◌∷◌, length};
ghost use Rattle.listing.specs.Rows.{Fits, Kind, Register, Local, Place, Number, Level, Sending};
ghost use Rattle.listing.specs.Rows.{Width, Reads, InRange};

use crate::fault::LineFault;
use plex_limits::MOST_VALUES;

/// A number below 2^32.
pub fn number(operand: Option<u32>) -> Result<u32, LineFault>
    ensures { Reads (Number ∷ []) (λ n. n ∷ []) (operand ∷ []) result }
{
    match operand {
        Some(n) => Ok(n),
        None => Err(LineFault::Operand),
    }
}

/// The number of a register.
pub fn register(operand: Option<u32>) -> Result<u8, LineFault>
    ensures { Reads (Register ∷ []) (λ r. r ∷ []) (operand ∷ []) result }
{
    match operand {
        Some(r) if r < 16 => Ok(r as u8),
        _ => Err(LineFault::Operand),
    }
}

/// The number of a local.
pub fn local(operand: Option<u32>) -> Result<u8, LineFault>
    ensures { Reads (Local ∷ []) (λ i. i ∷ []) (operand ∷ []) result }
{
    match operand {
        Some(i) if i < 50 => Ok(i as u8),
        _ => Err(LineFault::Operand),
    }
}

/// The place of an entry value or an answer value.
pub fn place(operand: Option<u32>) -> Result<u8, LineFault>
    ensures { Reads (Place ∷ []) (λ k. k ∷ []) (operand ∷ []) result }
{
    match operand {
        Some(k) if k < MOST_VALUES as u32 => Ok(k as u8),
        _ => Err(LineFault::Operand),
    }
}

/// A level, from 0 for A.
pub fn level(operand: Option<u32>) -> Result<u8, LineFault>
    ensures { Reads (Level ∷ []) (λ l. l ∷ []) (operand ∷ []) result }
{
    match operand {
        Some(l) if l <= 3 => Ok(l as u8),
        _ => Err(LineFault::Operand),
    }
}

/// The kind of a send.
pub fn sending(operand: Option<u32>) -> Result<u8, LineFault>
    ensures { Reads (Sending ∷ []) (λ q. q ∷ []) (operand ∷ []) result }
{
    match operand {
        Some(q) if q <= 2 => Ok(q as u8),
        _ => Err(LineFault::Operand),
    }
}

/// A number of bits.
pub fn width(operand: Option<u32>) -> Result<u8, LineFault>
    ensures { Reads (Width ∷ []) (λ d. d ∷ []) (operand ∷ []) result }
{
    match operand {
        Some(d) if d >= 1 && d <= 32 => Ok(d as u8),
        _ => Err(LineFault::Operand),
    }
}
