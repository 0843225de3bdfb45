// What is reported of a change, and what is carried over to the new exchange (docs/MACHINE.md,
// Changing blocks while the exchange runs).
ghost use Rattle.std.specs.Prelude.{◌≡◌, ◌≤◌, ◌++◌, IfOk, None, OnOk};
ghost use Rattle.plex_limits.specs.declared.limits.TheConstants.{MOST_JOBS};
ghost use Rattle.store_layout.specs.Laid.{IsLayout};
ghost use Rattle.block_change.specs.Carried.{AreStanding, state_with};
ghost use Rattle.block_change.specs.Misfits.{misfit};
ghost use Rattle.run_books.specs.Events.{ending_of};
ghost use Rattle.run_books.specs.Parts.{AreParts, account_of};
ghost use Rattle.report_text.specs.Report.{event_lines, text_of};
ghost use Rattle.answer_meaning.specs.ChangeAnswer.{ends_before};
ghost use Rattle.answer_meaning.specs.Stages.{IsStopOf};
ghost use Rattle.answer_meaning.specs.Text.{change_text, file_words, misfit_refusal, misfit_text};
ghost use Rattle.run_answers.specs.Runs.{CarriesOn};

use answer_meaning::{Answer, FileFault, Stop};
use block_change::{Misfit, Named, carry};
use command_words::Status;
use exchange_model::Exchange;
use exchange_run::{Ended, Standing};
use plex_num::{Memory, Seq, print_number};
use report_text::event_lines;
use run_books::{BookParts, Books, Ending};
use std::alloc::Global;
use store_layout::Layout;
use text_parts::Text;

/// A change from one exchange to another after job `at`.
#[derive(Clone, Copy)]
pub struct Change<'a> {
    pub old: &'a Exchange,
    pub new: &'a Named<'a>,
    pub at: u32,
}

/// The stop that names what the new exchange lacks.
#[tactic(auto, using(crate::proofs::Misfitting::misfit_told))]
pub fn misfit_stop(alloc: Global, old: &Exchange, misfit: Misfit) -> Stop
    ensures { IsStopOf (misfit_refusal old.now misfit) result }
{
    match misfit_text(alloc, old, misfit) {
        Ok(text) => Stop::Told {
            answer: Answer {
                status: Status::Change,
                text: Text::whole(alloc, text),
            },
            fault: FileFault::Change(misfit),
        },
        Err(Memory) => Stop::Memory,
    }
}

/// `CHANGE ENTRY SIG BLOCK` or `CHANGE FILE BLOCK.FILE`.
fn misfit_text(alloc: Global, old: &Exchange, misfit: Misfit) -> Result<Seq<u8>, Memory>
    ensures { IfOk result (λ text. text ≡ misfit_text old.now misfit) }
{
    match misfit {
        Misfit::Entry { entry } => entry_text(alloc, old, entry),
        Misfit::File { file } => file_text(alloc, old, file),
    }
}

fn entry_text(alloc: Global, old: &Exchange, entry: u32) -> Result<Seq<u8>, Memory>
    ensures { IfOk result (λ text. text ≡ misfit_text old.now (Misfit.Entry entry)) }
{
    let mut text = Seq::copied(alloc, b"CHANGE ENTRY ")?;
    old.add_entry(&mut text, entry as usize)?;
    text.append(b"\n")?;
    Ok(text)
}

fn file_text(alloc: Global, old: &Exchange, file: u32) -> Result<Seq<u8>, Memory>
    ensures { IfOk result (λ text. text ≡ misfit_text old.now (Misfit.File file)) }
{
    let mut text = Seq::copied(alloc, b"CHANGE FILE ")?;
    add_file(&mut text, old, file)?;
    text.append(b"\n")?;
    Ok(text)
}

/// `BLOCK.FILE` for a file's number; nothing if there is no such file.
fn add_file(text: &mut Seq<u8>, exchange: &Exchange, file: u32) -> Result<(), Memory>
    ensures { OnOk result (text.new ≡ text.old ++ file_words exchange.now file) }
{
    let Some(place) = exchange.file(file) else {
        return Ok(());
    };
    text.append(exchange.block_name(place.block))?;
    text.append(b".")?;
    text.append(place.file.name.as_slice())
}

/// Whether a run that ended so has fewer than `at` jobs, or stopped after its last restart.
pub fn ends_before(end: &Ended, at: u32) -> bool
    ensures { result ≡ ends_before (ending_of end.now.ending) end.now.books.state.ended at }
{
    match end.ending {
        Ending::Restart => true,
        Ending::Done => end.books.ended() < u64::from(at),
        Ending::Limit => end.books.ended() < u64::from(at),
    }
}

/// The events before the change, and the change itself. The only error is out of memory.
pub fn text_before(
    alloc: Global,
    old: &Exchange,
    parts: &BookParts,
    at: u32,
) -> Result<Text, Memory>
    ensures { IfOk result (λ text. text
        ≡ text_of (event_lines old.now (account_of parts.now).state.events) ++ change_text at) }
{
    let line = change_text(alloc, at)?;
    let mut text = event_lines(alloc, old, parts.events.queue(alloc)?)?;
    text.append(line.as_slice())?;
    Ok(text)
}

/// `CHANGE job K`.
fn change_text(alloc: Global, at: u32) -> Result<Seq<u8>, Memory>
    ensures { IfOk result (λ text. text ≡ change_text at) }
{
    let mut text = Seq::copied(alloc, b"CHANGE job ")?;
    print_number(u64::from(at), &mut text)?;
    text.append(b"\n")?;
    Ok(text)
}

/// Carries the state of the old exchange between two jobs (the parts of its books, and its words)
/// over to the new one. The run may continue up to `jobs` jobs. `layout` is that of the old
/// exchange, `to` that of the new one. The only error is out of memory.
pub fn carried_run(
    alloc: Global,
    change: &Change<'_>,
    layout: &Layout,
    to: &Layout,
    parts: BookParts,
    words: &Seq<u32>,
    jobs: u32,
) -> Result<Standing, Memory>
    requires fits { misfit change.now.old.now change.now.new.now.exchange.now ≡ None }
    requires layout { IsLayout change.now.old.now.blocks layout.now }
    requires to { IsLayout change.now.new.now.exchange.now.blocks to.now }
    requires standing { AreStanding change.now.old.now parts words.now }
    requires few { parts.ended ≤ jobs }
    requires most { jobs ≤ MOST_JOBS }
    ensures { IfOk result (CarriesOn change.now.old.now change.now.new.now.exchange.now
        (state_with parts words.now) jobs) }
{
    let (moved, carried) = carry(alloc, change.old, change.new, layout, to, parts, words)?;
    let run = raised(moved, carried, jobs);
    Ok(run)
}

/// A run with these parts of books and these words, up to `jobs` jobs.
#[tactic(auto, using(crate::proofs::Carrying::raised_books))]
fn raised(parts: BookParts, words: Seq<u32>, jobs: u32) -> Standing
    requires parts { AreParts parts }
    requires few { parts.ended ≤ jobs }
    requires most { jobs ≤ MOST_JOBS }
    ensures books { result.books ≡ account_of (record parts { limit = jobs }) }
    ensures words { result.words ≡ words }
{
    let mut parts = parts;
    parts.limit = u64::from(jobs);
    let books = Books::from_parts(parts);
    Standing { books, words }
}
