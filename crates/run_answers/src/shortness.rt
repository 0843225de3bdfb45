// Whether the code of an exchange is short enough to compile.
ghost use Rattle.std.specs.Prelude.{◌≡◌, nat_le, IfOk};
ghost use Rattle.code_gen.specs.Unrolled.{unrolled_length};
ghost use Rattle.run_answers.specs.declared.shortness.TheConstants.{MOST_UNROLLED};

use code_gen::unrolled_length;
use exchange_model::Exchange;
use plex_num::Memory;
use std::alloc::Global;

/// The most unrolled instructions that compiled code may have: those that are repeated for each
/// field of a file, and for each receiver of a signal. With more, the source interpreter is used
/// instead: the report is the same, and no memory is needed for code.
pub const MOST_UNROLLED: u64 = 200_000;

/// Whether the code of an exchange is short enough to compile. The only error is out of memory.
pub fn has_short_code(alloc: Global, exchange: &Exchange) -> Result<bool, Memory>
    ensures { IfOk result (λ short. short ≡ nat_le (unrolled_length exchange.now) MOST_UNROLLED) }
{
    let length = unrolled_length(alloc, exchange)?;
    Ok(length <= MOST_UNROLLED)
}
