// The listing of the code of an exchange.
ghost use Rattle.std.specs.Prelude.{◌≡◌, IfOk};
ghost use Rattle.answer_meaning.specs.ListAnswer.{list_of, listing_answer};
ghost use Rattle.answer_meaning.specs.Program.{IsEnding};
ghost use Rattle.answer_meaning.specs.Stages.{Comes};

use answer_meaning::{Answer, Stop};
use code_gen::compile;
use command_words::Status;
use exchange_model::Exchange;
use known_exchange::exchange_in;
use listing::print_code;
use plex_io::{Shelf, Word};
use plex_num::Memory;
use std::alloc::Global;
use store_layout::layout_of;
use text_parts::Text;

/// Performs `list`. Stops where the file is missing or cannot be read, at the first fault of its
/// text, or out of memory.
#[tactic(auto, using(answer_meaning::proofs::Stages::comes_rules))]
pub fn perform_list<S: Shelf>(alloc: Global, shelf: &mut S, name: &Word) -> Result<Answer, Stop>
    ensures comes { Comes (S.held shelf.old) (list_of name.now) (S.faults shelf.old)
        (S.faults shelf.new) result }
    ensures ending { IfOk result (λ a. IsEnding a.status) }
{
    let exchange = exchange_in(alloc, shelf, name)?;
    let answer = listing_answer(alloc, &exchange)?;
    Ok(answer)
}

/// The listing of the code of an exchange.
#[tactic(auto, using(crate::proofs::Showing::listing_is))]
fn listing_answer(alloc: Global, exchange: &Exchange) -> Result<Answer, Memory>
    ensures answer { IfOk result (λ a. a ≡ listing_answer exchange.now) }
    ensures ending { IfOk result (λ a. IsEnding a.status) }
{
    let layout = layout_of(alloc, exchange)?;
    let code = compile(alloc, exchange, &layout)?;
    let text = print_code(alloc, &code)?;
    Ok(Answer {
        status: Status::Done,
        text: Text::whole(alloc, text),
    })
}
