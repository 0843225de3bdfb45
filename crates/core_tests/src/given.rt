// Builds the inputs of tests from texts: an exchange, signal lines, a checked certificate, and the
// state of the core after events.
ghost use Rattle.std.specs.Prelude.{◌≡◌, ◌<◌, ◌≤◌, ◌^◌, [], length, map, IfOk};
ghost use Rattle.plex_limits.specs.declared.limits.TheConstants.{MOST_BYTES, MOST_TOKENS};
ghost use Rattle.plex_limits.specs.declared.limits.TheConstants.{MOST_WHENS};
ghost use Rattle.plex_ast.specs.Grammar.{Sentence};
ghost use Rattle.kept_trees.specs.Keeps.{IsKept};
ghost use Rattle.resolved_block.specs.Texts.{choices_in, exchange_of_tree};
ghost use Rattle.exchange_model.specs.Opening.{opening_store};
ghost use Rattle.store_layout.specs.Laid.{IsLayout};
ghost use Rattle.source_meaning.specs.Arrivals.{arrivals};
ghost use Rattle.source_meaning.specs.Valid.{IsValid, LinesFit};
ghost use Rattle.run_books.specs.Accounts.{with_words};
ghost use Rattle.run_books.specs.Lines.{coming_of};
ghost use Rattle.machine_meaning.specs.Faithful.{Faithful};
ghost use Rattle.checked.specs.Kept.{IsChecked};

use certificate::certificate_of;
use certificate_check::check;
use certificate_text::{Certificate, read_certificate};
use checked::Checked;
use exchange_model::Exchange;
use front_end::resolve;
use interleave_core::{CoreEvent, CoreFault, CoreState, run_events};
use machine_code::Code;
use plex_ast::Tree;
use plex_lexer::{Tokens, lex};
use plex_limits::MOST_BYTES;
use plex_num::{Memory, Seq};
use plex_parser::parse;
use run_books::{Books, let_arrive};
use signal_file::{Known, Line, directory_of, read_signals};
use std::alloc::Global;
use store_layout::{Layout, opening};

/// The limit of jobs of each run.
pub const MOST_JOBS_HERE: u64 = 100;

/// The input could not be built: its text has a fault, or out of memory.
#[derive(Clone, Copy, Debug)]
pub struct NotMade;

impl From<Memory> for NotMade {
    fn from(_: Memory) -> NotMade {
        NotMade
    }
}

/// The exchange of a text.
pub fn exchange_of(alloc: Global, text: &str) -> Result<Exchange, NotMade> {
    let tree = tree_of(alloc, text.as_bytes())?;
    match resolve(alloc, &tree) {
        Ok(exchange) => Ok(exchange),
        Err(_) => Err(NotMade),
    }
}

/// The syntax tree of a text.
#[tactic(auto, using(crate::proofs::Making::tree_has_few))]
fn tree_of(alloc: Global, text: &[u8]) -> Result<Tree, NotMade>
    ensures kept { IfOk result IsKept }
    ensures few { IfOk result (λ t. choices_in (exchange_of_tree t) ≤ MOST_WHENS) }
{
    if text.len() > MOST_BYTES {
        return Err(NotMade);
    }
    match lex(alloc, text) {
        Ok(tokens) => tree_of_tokens(alloc, &tokens),
        Err(_) => Err(NotMade),
    }
}

/// The syntax tree of these tokens.
fn tree_of_tokens(alloc: Global, tokens: &Tokens<'_>) -> Result<Tree, NotMade>
    requires { length tokens.now ≤ MOST_TOKENS }
    ensures { IfOk result (λ t. Sentence t tokens.now) }
{
    match parse(alloc, tokens) {
        Ok(tree) => Ok(tree),
        Err(_) => Err(NotMade),
    }
}

/// The signal lines of a text.
#[tactic(auto, using(crate::proofs::Making::lines_fit, crate::proofs::Making::lines_few))]
pub fn lines_of(alloc: Global, exchange: &Exchange, text: &str) -> Result<Seq<Line>, NotMade>
    ensures fit { IfOk result (λ lines. LinesFit exchange.now [] (map coming_of lines)) }
    ensures few { IfOk result (λ lines. length lines < 2 ^ 32) }
{
    let text = text.as_bytes();
    if text.len() > MOST_BYTES {
        return Err(NotMade);
    }
    let names = directory_of(alloc, exchange)?;
    let known = Known {
        exchange,
        names: &names,
    };
    match read_signals(alloc, &known, text)? {
        Ok(lines) => Ok(lines),
        Err(_) => Err(NotMade),
    }
}

/// The exchange's own certificate, checked.
pub fn least_of(alloc: Global, exchange: &Exchange) -> Result<Checked, NotMade>
    ensures { IfOk result (IsChecked exchange.now) }
{
    let certificate = certificate_of(alloc, exchange)?;
    accepted(alloc, exchange, certificate)
}

/// The certificate of a text, checked.
pub fn told_by(alloc: Global, exchange: &Exchange, text: &str) -> Result<Checked, NotMade>
    ensures { IfOk result (IsChecked exchange.now) }
{
    let text = text.as_bytes();
    if text.len() > MOST_BYTES {
        return Err(NotMade);
    }
    match read_certificate(alloc, text) {
        Ok(certificate) => accepted(alloc, exchange, certificate),
        Err(_) => Err(NotMade),
    }
}

/// Checks a certificate of the exchange.
#[tactic(auto, using(certificate_meaning::proofs::Judging::accepted_is_checked))]
pub fn accepted(
    alloc: Global,
    exchange: &Exchange,
    certificate: Certificate,
) -> Result<Checked, NotMade>
    ensures { IfOk result (IsChecked exchange.now) }
{
    match check(alloc, exchange, certificate) {
        Ok(checked) => Ok(checked),
        Err(_) => Err(NotMade),
    }
}

/// The books before the first job, after the arrivals that are due.
pub fn books_of(alloc: Global, exchange: &Exchange, lines: Seq<Line>) -> Result<Books, Memory>
    requires fit { LinesFit exchange.now [] (map coming_of lines) }
    requires few { length lines < 2 ^ 32 }
    ensures nobody { IfOk result (λ books. books.running ≡ 0) }
    ensures valid { IfOk result (λ books. IsValid exchange.now
        (with_words books.state (opening_store exchange.now.blocks))) }
    ensures quiet { IfOk result (λ books.
        arrivals exchange.now (with_words books.state (opening_store exchange.now.blocks))
        ≡ with_words books.state (opening_store exchange.now.blocks)) }
{
    exchange.kept();
    let mut books = Books::new(alloc, lines, MOST_JOBS_HERE);
    let_arrive(exchange, &mut books)?;
    Ok(books)
}

/// The events to try, and the number of workers.
#[derive(Clone, Copy)]
pub struct Tried<'a> {
    pub workers: u32,
    pub events: &'a [CoreEvent],
}

/// The state of the core after these events, of which the first comes before the first job.
pub fn core_after(
    alloc: Global,
    exchange: &Exchange,
    layout: &Layout,
    code: &Code,
    checked: &Checked,
    lines: Seq<Line>,
    tried: &Tried<'_>,
) -> Result<CoreState, CoreFault>
    requires fit { LinesFit exchange.now [] (map coming_of lines) }
    requires few { length lines < 2 ^ 32 }
    requires layout { IsLayout exchange.now.blocks layout.now }
    requires faithful { Faithful exchange.now code.now }
    requires checked { IsChecked exchange.now checked.now }
{
    let Tried { workers, events } = *tried;
    let words = opening(alloc, exchange, layout)?;
    let books = books_of(alloc, exchange, lines)?;
    run_events(
        alloc, exchange, layout, code, checked, books, words, workers, events,
    )
}
