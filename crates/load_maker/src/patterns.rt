// Text in which letters stand for numbers.
ghost use Rattle.std.specs.Prelude.{◌≡◌, ◌++◌, OnOk};
ghost use Rattle.load_maker.specs.Patterns.{filled, meant};

use plex_num::{Memory, Seq, print_number};

/// Appends a pattern with its numbers: `n` calls, `i`, and `i + 1` for the letter `j`.
pub fn add_filled(text: &mut Seq<u8>, pattern: &[u8], n: u32, i: u32) -> Result<(), Memory>
    ensures { OnOk result (text.new ≡ text.old ++ filled n i pattern.now) }
{
    for byte in pattern {
        add_meant(text, *byte, n, i)?;
    }
    Ok(())
}

/// Appends what a byte of a pattern stands for.
fn add_meant(text: &mut Seq<u8>, byte: u8, n: u32, i: u32) -> Result<(), Memory>
    ensures { OnOk result (text.new ≡ text.old ++ meant n i byte) }
{
    match byte {
        b'n' => print_number(u64::from(n), text),
        b'i' => print_number(u64::from(i), text),
        b'j' => print_number(u64::from(i) + 1, text),
        _ => text.push(byte),
    }
}
