// Answers `analyse` and `certify`.
ghost use Rattle.std.specs.Prelude.{IfOk};
ghost use Rattle.answer_meaning.specs.ExchangeAnswer.{AnswersAnalysis, AnswersCertificate};
ghost use Rattle.answer_meaning.specs.ExchangeAnswer.{FromExchange};
ghost use Rattle.answer_meaning.specs.Program.{IsEnding};
ghost use Rattle.answer_meaning.specs.Stages.{Performs};

use access_summary::summaries_of;
use analysis_text::analysis;
use answer_meaning::{Answer, Stop};
use certificate::text_of_certificate;
use command_words::Status;
use exchange_model::Exchange;
use known_exchange::exchange_in;
use plex_io::{Shelf, Word};
use plex_num::Memory;
use std::alloc::Global;

/// Performs `analyse`. Stops where the file is missing or cannot be read, at the first fault of its
/// text, or out of memory.
#[tactic(auto, using(answer_meaning::proofs::Stages::performs_rules))]
pub fn perform_analysis<S: Shelf>(alloc: Global, shelf: &mut S, name: &Word) -> Result<Answer, Stop>
    ensures comes { Performs (S.held shelf.old) (FromExchange name.now AnswersAnalysis)
        (S.faults shelf.old) (S.faults shelf.new) result }
    ensures ending { IfOk result (λ a. IsEnding a.status) }
{
    let exchange = exchange_in(alloc, shelf, name)?;
    let answer = analysis_answer(alloc, &exchange)?;
    Ok(answer)
}

/// Performs `certify`. Stops as `analyse` does.
#[tactic(auto, using(answer_meaning::proofs::Stages::performs_rules))]
pub fn perform_certificate<S: Shelf>(
    alloc: Global,
    shelf: &mut S,
    name: &Word,
) -> Result<Answer, Stop>
    ensures comes { Performs (S.held shelf.old) (FromExchange name.now AnswersCertificate)
        (S.faults shelf.old) (S.faults shelf.new) result }
    ensures ending { IfOk result (λ a. IsEnding a.status) }
{
    let exchange = exchange_in(alloc, shelf, name)?;
    let answer = certificate_answer(alloc, &exchange)?;
    Ok(answer)
}

/// The answer with the analysis of an exchange.
fn analysis_answer(alloc: Global, exchange: &Exchange) -> Result<Answer, Memory>
    ensures answer { IfOk result (AnswersAnalysis exchange.now) }
    ensures ending { IfOk result (λ a. IsEnding a.status) }
{
    let summaries = summaries_of(alloc, exchange)?;
    let text = analysis(alloc, exchange, &summaries)?;
    Ok(Answer {
        status: Status::Done,
        text,
    })
}

/// The answer with the certificate of an exchange.
fn certificate_answer(alloc: Global, exchange: &Exchange) -> Result<Answer, Memory>
    ensures answer { IfOk result (AnswersCertificate exchange.now) }
    ensures ending { IfOk result (λ a. IsEnding a.status) }
{
    let text = text_of_certificate(alloc, exchange)?;
    Ok(Answer {
        status: Status::Done,
        text,
    })
}
