// Values that no run sees.
//
// Where the shape of an instruction is known, no other instruction can stand there.
// `unreachable!()` would say so too, but it compiles to a stop of the program, and so to a test
// before it, in each instruction of each form. A bit behind the last one of a number has no value
// at all, so that the compiler may take the one of the other way, and needs no test. Only where no
// run comes may it be asked for.
ghost use Rattle.std.specs.Prelude.{◌<◌};

/// The bit of a number of 32 bits at a place, from 0.
#[inline(always)]
pub fn number_bit(place: u32) -> u32
    requires { place < 32 }
{
    1u32 << place
}

/// The bit of a byte at a place, from 0.
#[inline(always)]
pub fn byte_bit(place: u32) -> u8
    requires { place < 8 }
{
    1u8 << place
}

/// Nothing, of a byte's bit at a place, from 0.
#[inline(always)]
pub fn no_bit(place: u32)
    requires { place < 8 }
{
    let _ = place;
}
