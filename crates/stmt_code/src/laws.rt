// What the code of an exchange does, said by a clause.
ghost use Rattle.std.specs.Prelude.{◌≡◌, All};
ghost use Rattle.machine_code.specs.Operands.{OpFits};
ghost use Rattle.machine_meaning.specs.Faithful.{Faithful};
ghost use Rattle.stmt_code.specs.Whole.{entry_addresses, whole_code};

use crate::ranges::{files_are_numbered, numbers_are_words};
use exchange_model::Exchange;
use machine_code::Code;

/// The code of an exchange is faithful: in each state that the exchange can be in, the machine's
/// run of each start that fits it comes to an end, with the store, the touches, the sends, the
/// chain and the outcome of the job's meaning. And each of its operands is in its range. It looks
/// at each instruction once, whose numbers are of 32 bits by their types.
pub fn whole_code_is_faithful(exchange: &Exchange, code: &Code)
    requires ops { code.now.ops ≡ whole_code exchange.now }
    requires entries { code.now.entries ≡ entry_addresses exchange.now }
    ensures operands { All OpFits code.now.ops }
    ensures faithful { Faithful exchange.now code.now }
{
    exchange.kept();
    files_are_numbered(exchange);
    numbers_are_words(code);
}
