// The operands of an instruction, as many as it has and each of its kind.
ghost use Rattle.std.specs.Prelude.{[], ◌∷◌};
ghost use Rattle.listing.specs.Rows.{Kind, Level, Local, Number, Place, Reads, Register, Sending};
ghost use Rattle.listing.specs.Rows.{Width};

use crate::fault::LineFault;
use crate::kinds::{level, local, number, place, register, sending, width};

/// Reads as many operands as are named, each of its kind.
macro_rules! read {
    ($operands:ident $(, $name:ident: $kind:ident)*) => {
        match $operands {
            [$($name),*] => Ok(($($kind(*$name)?),*)),
            _ => Err(LineFault::Form),
        }
    };
}

pub fn one_number(operands: &[Option<u32>]) -> Result<u32, LineFault>
    ensures { Reads (Number ∷ []) (λ v. v ∷ []) operands.now result }
{
    read!(operands, a: number)
}

pub fn one_register(operands: &[Option<u32>]) -> Result<u8, LineFault>
    ensures { Reads (Register ∷ []) (λ v. v ∷ []) operands.now result }
{
    read!(operands, a: register)
}

pub fn register_number(operands: &[Option<u32>]) -> Result<(u8, u32), LineFault>
    ensures { Reads (Register ∷ Number ∷ []) (λ v. v.0 ∷ v.1 ∷ []) operands.now result }
{
    read!(operands, a: register, b: number)
}

pub fn number_register(operands: &[Option<u32>]) -> Result<(u32, u8), LineFault>
    ensures { Reads (Number ∷ Register ∷ []) (λ v. v.0 ∷ v.1 ∷ []) operands.now result }
{
    read!(operands, a: number, b: register)
}

pub fn register_local(operands: &[Option<u32>]) -> Result<(u8, u8), LineFault>
    ensures { Reads (Register ∷ Local ∷ []) (λ v. v.0 ∷ v.1 ∷ []) operands.now result }
{
    read!(operands, a: register, b: local)
}

pub fn local_register(operands: &[Option<u32>]) -> Result<(u8, u8), LineFault>
    ensures { Reads (Local ∷ Register ∷ []) (λ v. v.0 ∷ v.1 ∷ []) operands.now result }
{
    read!(operands, a: local, b: register)
}

pub fn register_place(operands: &[Option<u32>]) -> Result<(u8, u8), LineFault>
    ensures { Reads (Register ∷ Place ∷ []) (λ v. v.0 ∷ v.1 ∷ []) operands.now result }
{
    read!(operands, a: register, b: place)
}

pub fn registers(operands: &[Option<u32>]) -> Result<(u8, u8), LineFault>
    ensures { Reads (Register ∷ Register ∷ []) (λ v. v.0 ∷ v.1 ∷ []) operands.now result }
{
    read!(operands, a: register, b: register)
}

pub fn numbers(operands: &[Option<u32>]) -> Result<(u32, u32), LineFault>
    ensures { Reads (Number ∷ Number ∷ []) (λ v. v.0 ∷ v.1 ∷ []) operands.now result }
{
    read!(operands, a: number, b: number)
}

pub fn register_width(operands: &[Option<u32>]) -> Result<(u8, u8), LineFault>
    ensures { Reads (Register ∷ Width ∷ []) (λ v. v.0 ∷ v.1 ∷ []) operands.now result }
{
    read!(operands, a: register, b: width)
}

pub fn load_indexed(operands: &[Option<u32>]) -> Result<(u8, u32, u32, u8), LineFault>
    ensures { Reads (Register ∷ Number ∷ Number ∷ Register ∷ [])
        (λ v. v.0 ∷ v.1 ∷ v.2 ∷ v.3 ∷ []) operands.now result }
{
    read!(operands, a: register, b: number, c: number, d: register)
}

pub fn store_indexed(operands: &[Option<u32>]) -> Result<(u32, u32, u8, u8), LineFault>
    ensures { Reads (Number ∷ Number ∷ Register ∷ Register ∷ [])
        (λ v. v.0 ∷ v.1 ∷ v.2 ∷ v.3 ∷ []) operands.now result }
{
    read!(operands, a: number, b: number, c: register, d: register)
}

pub fn send(operands: &[Option<u32>]) -> Result<(u8, u32, u8), LineFault>
    ensures { Reads (Sending ∷ Number ∷ Level ∷ [])
        (λ v. v.0 ∷ v.1 ∷ v.2 ∷ []) operands.now result }
{
    read!(operands, a: sending, b: number, c: level)
}

pub fn nothing(operands: &[Option<u32>]) -> Result<(), LineFault>
    ensures { Reads [] (λ _. []) operands.now result }
{
    read!(operands)
}
