// The answer at the end of a run, whichever way it was executed.
ghost use Rattle.std.specs.Prelude.{◌≡◌, IfOk};
ghost use Rattle.run_books.specs.Accounts.{with_words};
ghost use Rattle.run_books.specs.Events.{ending_of};
ghost use Rattle.answer_meaning.specs.LoadAnswer.{summed_answer};
ghost use Rattle.answer_meaning.specs.Outcome.{headed_by};
ghost use Rattle.answer_meaning.specs.Program.{IsEnding};
ghost use Rattle.answer_meaning.specs.RunAnswer.{ended_status, ending_answer};

use answer_meaning::Answer;
use command_words::Status;
use exchange_model::Exchange;
use exchange_run::Ended;
use plex_num::Memory;
use report_text::{add_report, load_summary, report};
use run_books::Ending;
use std::alloc::Global;
use text_parts::Text;

/// The report on the end of a run, with the status of its ending. The only error is out of memory.
#[tactic(auto, using(crate::proofs::Telling::told_at, crate::proofs::Telling::status_ends))]
pub fn end_answer(alloc: Global, exchange: &Exchange, end: Ended) -> Result<Answer, Memory>
    ensures answer { IfOk result (λ a. a ≡ ending_answer exchange.now end) }
    ensures ending { IfOk result (λ a. IsEnding a.status) }
{
    let Ended {
        mut books,
        words,
        ending,
    } = end;
    let text = report(alloc, exchange, &mut books, &words, ending)?;
    Ok(Answer {
        status: status_of(ending),
        text,
    })
}

/// The same report after another text, with the status of the ending.
#[tactic(auto, using(crate::proofs::Telling::told_headed, crate::proofs::Telling::status_ends))]
pub fn headed_answer(text: Text, exchange: &Exchange, end: Ended) -> Result<Answer, Memory>
    ensures answer { IfOk result (λ a. a ≡ headed_by text (ending_answer exchange.now end)) }
    ensures ending { IfOk result (λ a. IsEnding a.status) }
{
    let Ended {
        mut books,
        words,
        ending,
    } = end;
    let mut text = text;
    add_report(&mut text, exchange, &mut books, &words, ending)?;
    Ok(Answer {
        status: status_of(ending),
        text,
    })
}

/// The summary of a load of `calls` calls at the end of its run, with the status of the ending. The
/// only error is out of memory.
#[tactic(auto, using(crate::proofs::Telling::told_summed, crate::proofs::Telling::status_ends))]
pub fn summed_answer(alloc: Global, calls: u32, end: Ended) -> Result<Answer, Memory>
    ensures answer { IfOk result (λ a. a ≡ summed_answer calls
        (with_words end.books.state end.words) (ending_of end.ending)) }
    ensures ending { IfOk result (λ a. IsEnding a.status) }
{
    let mut end = end;
    let text = load_summary(alloc, calls, &mut end.books, end.ending)?;
    Ok(Answer {
        status: status_of(end.ending),
        text,
    })
}

/// The status of an ending.
fn status_of(ending: Ending) -> Status
    ensures { result ≡ ended_status (ending_of ending) }
{
    match ending {
        Ending::Done => Status::Done,
        Ending::Restart => Status::Restart,
        Ending::Limit => Status::Limit,
    }
}
