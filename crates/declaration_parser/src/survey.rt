// Surveys.
ghost use Rattle.std.specs.Prelude.{◌≡◌, ◌++◌};
ghost use Rattle.plex_lexer.specs.Cursors.{ahead};
ghost use Rattle.token_grammar.specs.Gives.{Reads};
ghost use Rattle.token_grammar.specs.Reading.{at, many};
ghost use Rattle.declaration_parser.specs.Declarations.{survey_kind_read, survey_read};
ghost use Rattle.declaration_parser.specs.Declarations.{surveys_read};
ghost use Rattle.plex_ast.specs.Words as classes;

use plex_ast::{Survey, SurveyKind, words};
use plex_lexer::Cursor;
use plex_num::Seq;
use std::alloc::Global;
use token_grammar::{Fault, line_of, name, starts, starts_in, word};

/// `SURVEY ; { survey }`: the surveys, and the tokens after them.
#[tactic(auto, unfolding(crate::specs::Declarations::surveys_read))]
pub fn surveys(alloc: Global, tokens: Cursor<'_>) -> Result<(Seq<Survey>, Cursor<'_>), Fault>
    ensures { Reads result surveys_read tokens.entry }
{
    let (_, left) = word(tokens, words::SURVEY)?;
    let (_, left) = word(left, words::SEMI)?;
    survey_lines(alloc, left)
}

#[tactic(auto, using(crate::proofs::Loops::survey_less, crate::proofs::Loops::survey_on, crate::proofs::Loops::survey_end, crate::proofs::Loops::survey_bad))]
fn survey_lines(alloc: Global, tokens: Cursor<'_>) -> Result<(Seq<Survey>, Cursor<'_>), Fault>
    ensures { Reads result (many (classes.RECEIVE ++ classes.SEND) survey_read) tokens.entry }
{
    let mut left = tokens;
    let mut list = Seq::new(alloc);
    'lines: while starts_survey(left) {
        let (line, after) = survey_line(alloc, left)?;
        if let Err(_) = list.push(line) {
            return Err(Fault::Memory);
        }
        left = after;
    }
    Ok((list, left))
}

fn starts_survey(tokens: Cursor<'_>) -> bool
    ensures { result ≡ at (classes.RECEIVE ++ classes.SEND) (ahead tokens.entry) }
{
    starts_in(tokens, &[words::RECEIVE, words::SEND])
}

#[tactic(auto, unfolding(crate::specs::Declarations::survey_read))]
fn survey_line(alloc: Global, tokens: Cursor<'_>) -> Result<(Survey, Cursor<'_>), Fault>
    ensures { Reads result survey_read tokens.entry }
{
    let line = line_of(tokens);
    let (kind, left) = survey_kind(alloc, tokens)?;
    Ok((Survey { line, kind }, left))
}

/// `RECEIVE name ; | SEND name ;`
#[tactic(auto, unfolding(crate::specs::Declarations::survey_kind_read))]
fn survey_kind(alloc: Global, tokens: Cursor<'_>) -> Result<(SurveyKind, Cursor<'_>), Fault>
    ensures { Reads result survey_kind_read tokens.entry }
{
    if starts(tokens, words::RECEIVE) {
        let (_, left) = word(tokens, words::RECEIVE)?;
        let (signal, left) = name(alloc, left)?;
        let (_, left) = word(left, words::SEMI)?;
        Ok((SurveyKind::Receive { signal }, left))
    } else {
        let (_, left) = word(tokens, words::SEND)?;
        let (signal, left) = name(alloc, left)?;
        let (_, left) = word(left, words::SEMI)?;
        Ok((SurveyKind::Send { signal }, left))
    }
}
