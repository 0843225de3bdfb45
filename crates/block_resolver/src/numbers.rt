// Numbers of the tree.
ghost use Rattle.std.specs.Prelude.{◌≡◌, ◌+◌, IfOk, length};
ghost use Rattle.resolved_block.specs.Meant.{byte_of};

use exchange_model::File;
use plex_num::{Memory, Seq};

/// The sum, unless it has more than 32 bits.
pub(crate) fn sum(left: u32, right: u32) -> Result<u32, Memory>
    ensures { IfOk result (λ n. n ≡ left + right) }
{
    left.checked_add(right).ok_or(Memory)
}

/// The number after this one, unless 32 bits have none.
pub(crate) fn next(number: u32) -> Result<u32, Memory>
    ensures { IfOk result (λ n. n ≡ number + 1) }
{
    number.checked_add(1).ok_or(Memory)
}

/// The number after those of the files, the first of which has this number.
pub(crate) fn after_files(first: u32, files: &Seq<File>) -> Result<u32, Memory>
    ensures { IfOk result (λ n. n ≡ first + length files.now) }
{
    match u32::try_from(files.len()) {
        Ok(count) => Ok(sum(first, count)?),
        Err(_) => Err(Memory),
    }
}

/// The number in eight bits; 0 in the place of one that has more.
pub(crate) fn byte_of(number: u32) -> u8
    ensures { result ≡ byte_of number }
{
    if number < 256 { number as u8 } else { 0 }
}
