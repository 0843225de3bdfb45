// The exchange of a text, or its first fault.
ghost use Rattle.std.specs.Prelude.{◌≡◌, ◌≤◌, IfOk, IfSome, length};
ghost use Rattle.plex_ast.specs.Grammar.{Sentence};
ghost use Rattle.plex_limits.specs.declared.limits.TheConstants.{MOST_BYTES, MOST_TOKENS};
ghost use Rattle.plex_lexer.specs.Lines.{feeds};
ghost use Rattle.text_soundness.specs.Resolved.{resolved};
ghost use Rattle.answer_meaning.specs.Reading.{Finds, IsSpelled, at_line, end_line};
ghost use Rattle.answer_meaning.specs.Reading.{exchange_of_text};
ghost use Rattle.answer_meaning.specs.Reading.{resolved_or, rule_of, token_line, tree_of};
ghost use Rattle.answer_meaning.specs.Reading.{tree_of_file, tree_of_tokens};

use answer_meaning::{Rule, SourceFault};
use exchange_model::Exchange;
use front_end::resolve;
use plex_ast::Tree;
use plex_lexer::{LexFault, Tokens, lex};
use plex_num::{Memory, Seq};
use plex_parser::{ParseFault, parse};
use std::alloc::Global;
use text_rules::Rule as TextRule;
use text_soundness::TextFault;

/// The exchange of a file's text, or its first fault; `None` is a text above the size limit. The
/// only error is out of memory.
#[tactic(auto, using(answer_meaning::proofs::Accepted::found_rules))]
pub fn exchange_of_text(
    alloc: Global,
    text: &Option<Seq<u8>>,
) -> Result<Result<Exchange, SourceFault>, Memory>
    requires { IfSome text.now (λ t. length t ≤ MOST_BYTES) }
    ensures { Finds (exchange_of_text text.now) result }
{
    match tree_of_file(alloc, text)? {
        Ok(tree) => {
            let found = exchange_of_tree(alloc, &tree)?;
            Ok(found)
        }
        Err(fault) => Ok(Err(fault)),
    }
}

/// The exchange of a tree, or the first rule that the tree breaks.
#[tactic(auto, using(answer_meaning::proofs::Accepted::resolve_rules))]
fn exchange_of_tree(alloc: Global, tree: &Tree) -> Result<Result<Exchange, SourceFault>, Memory>
    requires { IsSpelled tree.now }
    ensures { Finds (resolved_or (resolved tree.now)) result }
{
    match resolve(alloc, tree) {
        Ok(exchange) => Ok(Ok(exchange)),
        Err(TextFault::Rule { rule, line }) => Ok(Err(fault_at(line, rule_of(rule)))),
        Err(TextFault::Memory) => Err(Memory),
    }
}

/// The syntax tree of a file's text, or its first fault.
fn tree_of_file(alloc: Global, text: &Option<Seq<u8>>) -> Result<Result<Tree, SourceFault>, Memory>
    requires { IfSome text.now (λ t. length t ≤ MOST_BYTES) }
    ensures is { Finds (tree_of_file text.now) result }
    ensures spelled { IfOk result (λ found. IfOk found IsSpelled) }
{
    match text {
        Some(text) => tree_of(alloc, text.as_slice()),
        None => Ok(Err(fault_at(0, Rule::TooLarge))),
    }
}

#[tactic(auto, unfolding(answer_meaning::specs::Reading::tree_of), using(answer_meaning::proofs::Accepted::all_found))]
fn tree_of(alloc: Global, text: &[u8]) -> Result<Result<Tree, SourceFault>, Memory>
    requires { length text.now ≤ MOST_BYTES }
    ensures is { Finds (tree_of text.now) result }
    ensures spelled { IfOk result (λ found. IfOk found IsSpelled) }
{
    match lex(alloc, text) {
        Ok(tokens) => tree_of_tokens(alloc, text, &tokens),
        Err(LexFault::BadByte { line, .. }) => Ok(Err(fault_at(line, Rule::BadByte))),
        Err(LexFault::BadNumber { line, .. }) => Ok(Err(fault_at(line, Rule::BadNumber))),
        Err(LexFault::LongName { line, .. }) => Ok(Err(fault_at(line, Rule::LongName))),
        Err(LexFault::Memory) => Err(Memory),
    }
}

fn tree_of_tokens(
    alloc: Global,
    text: &[u8],
    tokens: &Tokens<'_>,
) -> Result<Result<Tree, SourceFault>, Memory>
    requires text { length text.now ≤ MOST_BYTES }
    requires tokens { length tokens.now ≤ MOST_TOKENS }
    ensures is { Finds (tree_of_tokens text.now tokens.now) result }
    ensures spelled { IfOk result (λ found. IfOk found (λ t. Sentence t tokens.now)) }
{
    match parse(alloc, tokens) {
        Ok(tree) => Ok(Ok(tree)),
        Err(ParseFault::Unexpected { token }) => {
            Ok(Err(fault_at(token_line(tokens, token), Rule::Unexpected)))
        }
        Err(ParseFault::Ended) => Ok(Err(fault_at(end_line(text), Rule::Ended))),
        Err(ParseFault::TooDeep { token }) => {
            Ok(Err(fault_at(token_line(tokens, token), Rule::TooDeep)))
        }
        Err(ParseFault::Memory) => Err(Memory),
    }
}

/// The rule of a text, as a refusal reports it.
fn rule_of(rule: TextRule) -> Rule
    ensures { result ≡ rule_of rule }
{
    match rule {
        TextRule::Signals(rule) => Rule::Numbered(rule.number()),
        TextRule::Blocks(rule) => Rule::Numbered(rule.number()),
        TextRule::Links(rule) => Rule::Link(rule),
    }
}

/// The fault of a rule on a line.
fn fault_at(line: u32, rule: Rule) -> SourceFault
    ensures { result ≡ at_line line rule }
{
    SourceFault { line, rule }
}

/// The line of the token at an index; 0 if there is none.
#[tactic(auto, using(answer_meaning::proofs::Accepted::line_rules))]
fn token_line(tokens: &Tokens<'_>, place: u32) -> u32
    ensures { result ≡ token_line tokens.now place }
{
    match tokens.line_at(place as usize) {
        Some(line) => line,
        None => 0,
    }
}

/// The line on which a text ends.
fn end_line(text: &[u8]) -> u32
    requires { length text.now ≤ MOST_BYTES }
    ensures { result ≡ end_line text.now }
{
    1 + feeds(text) as u32
}

/// The number of LF bytes.
fn feeds(text: &[u8]) -> usize
    ensures count { result ≡ feeds text.now }
    ensures few { result ≤ length text.now }
{
    text.iter().filter(|byte| **byte == 10).count()
}
