// The link rules and the limits.
ghost use Rattle.std.specs.Prelude.{◌≡◌, ◌||◌, ◌<◌, ℕ, List, Option, OnOk, IfOk, MatchResult};
ghost use Rattle.std.specs.Prelude.{false};
ghost use Rattle.std.specs.Str.{bytes_eq};
ghost use Rattle.indexmap.specs.IndexSet.{contains};
ghost use Rattle.first_fault.specs.First.{any, first_broken};
ghost use Rattle.signal_types.specs.Found.{kind_in};
ghost use Rattle.text_events.specs.Note.{begun, Open};
ghost use Rattle.text_events.specs.Seen.{note_of, way_seen};
ghost use Rattle.text_rules.specs.Surveys.{line_receives, line_sends, item_enters, receives, sends};
ghost use Rattle.text_rules.specs.Surveys.{enters};
ghost use Rattle.text_rules.specs.Links.{block_of, broken, all_rules, is_outside, is_open};
ghost use Rattle.text_rules.specs.Links.{is_wrong_way, no_receiver, needs_reference, not_received};
ghost use Rattle.text_rules.specs.Links.{head_enters, adds, plus};
ghost use Rattle.rule_checks.specs.Tables.{amounts_of, links_in, block_seen, IsOwn, IsTold};
ghost use Rattle.text_rules.specs.Texts.{links_told};

use crate::amounts::{Counted, added_at};
use crate::names::NameSet;
use exchange_model::SignalKind;
use plex_ast::{Block, Item, ItemKind, Survey, SurveyKind};
use plex_num::{Memory, Seed, Seq};
use signal_types::SignalTable;
use std::alloc::Global;
use text_events::{Event, EventKind, Head, Way};
use text_rules::{BlockTable, Fault, LinkRule};
use token_grammar::KeptName;

/// The signals that a block receives, sends and enters.
#[derive(Drop)]
pub(crate) struct Own {
    pub(crate) received: NameSet,
    pub(crate) sent: NameSet,
    pub(crate) entered: NameSet,
}

fn see_received(names: &mut NameSet, line: &Survey) -> Result<(), Memory>
    ensures { OnOk result ((s : List ℕ) → contains bytes_eq names.new.names s
        ≡ (contains bytes_eq names.old.names s || line_receives s line.now)) }
{
    match &line.kind {
        SurveyKind::Receive { signal } => names.add(&signal.name),
        SurveyKind::Send { .. } => Ok(()),
    }
}

fn see_sent(names: &mut NameSet, line: &Survey) -> Result<(), Memory>
    ensures { OnOk result ((s : List ℕ) → contains bytes_eq names.new.names s
        ≡ (contains bytes_eq names.old.names s || line_sends s line.now)) }
{
    match &line.kind {
        SurveyKind::Receive { .. } => Ok(()),
        SurveyKind::Send { signal } => names.add(&signal.name),
    }
}

fn see_entered(names: &mut NameSet, item: &Item) -> Result<(), Memory>
    ensures { OnOk result ((s : List ℕ) → contains bytes_eq names.new.names s
        ≡ (contains bytes_eq names.old.names s || item_enters s item.now)) }
{
    match &item.kind {
        ItemKind::Enter { signal, .. } => names.add(&signal.name),
        _ => Ok(()),
    }
}

#[tactic(auto, using(text_rules::proofs::LinkSteps::any_begin, text_rules::proofs::LinkSteps::any_step, text_rules::proofs::LinkSteps::any_end))]
fn received_in(alloc: Global, lines: &[Survey], seed: Seed) -> Result<NameSet, Memory>
    ensures { IfOk result (λ names. (s : List ℕ)
        → contains bytes_eq names.names s ≡ any (line_receives s) lines.now) }
{
    let mut names = NameSet::new(alloc, seed);
    for line in lines {
        see_received(&mut names, line)?;
    }
    Ok(names)
}

#[tactic(auto, using(text_rules::proofs::LinkSteps::any_begin, text_rules::proofs::LinkSteps::any_step, text_rules::proofs::LinkSteps::any_end))]
fn sent_in(alloc: Global, lines: &[Survey], seed: Seed) -> Result<NameSet, Memory>
    ensures { IfOk result (λ names. (s : List ℕ)
        → contains bytes_eq names.names s ≡ any (line_sends s) lines.now) }
{
    let mut names = NameSet::new(alloc, seed);
    for line in lines {
        see_sent(&mut names, line)?;
    }
    Ok(names)
}

#[tactic(auto, using(text_rules::proofs::LinkSteps::any_begin, text_rules::proofs::LinkSteps::any_step, text_rules::proofs::LinkSteps::any_end))]
fn entered_in(alloc: Global, items: &[Item], seed: Seed) -> Result<NameSet, Memory>
    ensures { IfOk result (λ names. (s : List ℕ)
        → contains bytes_eq names.names s ≡ any (item_enters s) items.now) }
{
    let mut names = NameSet::new(alloc, seed);
    for item in items {
        see_entered(&mut names, item)?;
    }
    Ok(names)
}

impl Own {
    /// Those of a block, if there is one.
    fn of(alloc: Global, block: Option<&Block>, seed: Seed) -> Result<Own, Memory>
        ensures { IfOk result (λ own. IsOwn own (block_seen block.entry)) }
    {
        match block {
            Some(block) => Ok(Own {
                received: received_in(alloc, block.surveys.as_slice(), seed)?,
                sent: sent_in(alloc, block.surveys.as_slice(), seed)?,
                entered: entered_in(alloc, block.items.as_slice(), seed)?,
            }),
            None => Ok(Own {
                received: NameSet::new(alloc, seed),
                sent: NameSet::new(alloc, seed),
                entered: NameSet::new(alloc, seed),
            }),
        }
    }
}

/// What stands around the tables of a part: the signals, the blocks of the text, and what the own
/// block says of signals.
pub(crate) struct Links<'a> {
    pub(crate) signals: &'a SignalTable<'a>,
    pub(crate) blocks: &'a BlockTable<'a>,
    pub(crate) own: Own,
}

impl Drop for Links<'_> {
    fn drop(self) {
        let Links {
            signals: _,
            blocks: _,
            own: _,
        } = self;
    }
}

impl Links<'_> {
    fn is_outside(&self, signal: &KeptName) -> bool
        ensures { result ≡ is_outside (kind_in self.now.signals.now.kinds.now signal.now) }
    {
        match self.signals.kind(signal) {
            Some(SignalKind::Outside { .. }) => true,
            _ => false,
        }
    }
}

/// What a text has said before an event, and its part of the entered signals.
#[derive(Drop)]
pub(crate) struct Before {
    pub(crate) entered: NameSet,
    pub(crate) counted: Counted,
}

fn is_open(way: Way<'_>) -> bool
    ensures { result ≡ is_open (way_seen way.entry) }
{
    match way {
        Way::Open => true,
        _ => false,
    }
}

impl Before {
    fn has_no_receiver(&self, links: &Links<'_>, signal: &KeptName) -> bool
        ensures { result ≡ no_receiver (links_in self.now links.now) signal.now Open }
    {
        !links.is_outside(signal) && links.blocks.receiver_count(signal) == 0
    }

    fn needs_reference(&self, links: &Links<'_>, signal: &KeptName, way: Way<'_>) -> bool
        ensures { result ≡ needs_reference (links_in self.now links.now) signal.now
            (way_seen way.entry) }
    {
        !links.is_outside(signal) && links.blocks.receiver_count(signal) > 1 && is_open(way)
    }

    fn is_wrong_way(&self, links: &Links<'_>, signal: &KeptName, way: Way<'_>) -> bool
        ensures { result ≡ is_wrong_way (links_in self.now links.now) signal.now
            (way_seen way.entry) }
    {
        match way {
            Way::To(name) => match links.blocks.number(name) {
                Some(block) => !links.blocks.receives(block, signal),
                None => true,
            },
            _ => false,
        }
    }

    fn is_not_received(&self, links: &Links<'_>, signal: &KeptName, way: Way<'_>) -> bool
        ensures { result ≡ not_received (links_in self.now links.now) signal.now
            (way_seen way.entry) }
    {
        !links.is_outside(signal) && self.is_wrong_way(links, signal, way)
    }

    /// Takes in one event more.
    fn see(&mut self, links: &Links<'_>, kind: EventKind<'_>) -> Result<(), Memory>
        ensures entered { OnOk result ((s : List ℕ)
            → contains bytes_eq self.new.entered.names s
            ≡ (contains bytes_eq self.old.entered.names s
            || head_enters s (begun (note_of kind.entry)))) }
        ensures counted { OnOk result (amounts_of self.new.counted
            ≡ plus (amounts_of self.old.counted)
            (adds (kind_in links.now.signals.now.kinds.now) (note_of kind.entry))) }
    {
        self.counted = self.counted.plus(added_at(links.signals, kind))?;
        match kind.begun() {
            Head::Enters { signal, .. } => self.entered.add(signal),
            _ => Ok(()),
        }
    }

    fn is_broken(&self, links: &Links<'_>, rule: LinkRule, kind: EventKind<'_>) -> bool
        ensures { result ≡ broken rule (links_in self.now links.now) (note_of kind.entry) }
    {
        match rule {
            LinkRule::NoReceiver => match kind.begun() {
                Head::Sends { signal, .. } => self.has_no_receiver(links, signal),
                Head::Transfers { signal, .. } => self.has_no_receiver(links, signal),
                _ => false,
            },
            LinkRule::NeedsReference => match kind.begun() {
                Head::Sends { signal, way, .. } => self.needs_reference(links, signal, way),
                Head::Transfers { signal, way } => self.needs_reference(links, signal, way),
                _ => false,
            },
            LinkRule::NotReceived => match kind.begun() {
                Head::Sends { signal, way, .. } => self.is_not_received(links, signal, way),
                Head::Transfers { signal, way } => self.is_not_received(links, signal, way),
                _ => false,
            },
            LinkRule::NotInSurvey => match kind.begun() {
                Head::Sends { signal, .. } => !links.own.sent.has(signal),
                Head::Transfers { signal, .. } => !links.own.sent.has(signal),
                Head::Enters { signal, .. } => !links.own.received.has(signal),
                _ => false,
            },
            LinkRule::TwoEnters => match kind.begun() {
                Head::Enters { signal, .. } => self.entered.has(signal),
                _ => false,
            },
            LinkRule::NoEnter => match kind {
                EventKind::Receives { signal } => !links.own.entered.has(signal),
                _ => false,
            },
            LinkRule::Limit => self.counted.goes_over(added_at(links.signals, kind)),
        }
    }

    /// The first rule that an event breaks.
    fn rule_at(&self, links: &Links<'_>, event: &Event<'_>) -> Option<LinkRule>
        ensures { result ≡ first_broken (λ r k e. broken r k e.note) all_rules
            (links_in self.now links.now) event.now }
    {
        let kind = event.kind();
        for rule in RULES {
            if self.is_broken(links, rule, kind) {
                return Some(rule);
            }
        }
        None
    }
}

/// The rules in the order of their numbers.
const RULES: [LinkRule; 7] = [
    LinkRule::NoReceiver,
    LinkRule::NeedsReference,
    LinkRule::NotReceived,
    LinkRule::NotInSurvey,
    LinkRule::TwoEnters,
    LinkRule::NoEnter,
    LinkRule::Limit,
];

// The block of a part; the first part is that of the signals.
fn own_block<'a>(blocks: &BlockTable<'a>, part: usize) -> Option<&'a Block>
    ensures { block_seen result ≡ block_of blocks.now.blocks.now part }
{
    match part.checked_sub(1) {
        Some(number) => blocks.blocks.get(number),
        None => None,
    }
}

fn links_of<'a>(
    alloc: Global,
    signals: &'a SignalTable<'a>,
    blocks: &'a BlockTable<'a>,
    part: usize,
) -> Result<Links<'a>, Memory>
    ensures signals { IfOk result (λ l. l.signals.now.kinds.now ≡ signals.now.kinds.now) }
    ensures blocks { IfOk result (λ l. l.blocks.now.blocks.now ≡ blocks.now.blocks.now) }
    ensures own { IfOk result (λ l. IsOwn l.own (block_of blocks.now.blocks.now part)) }
{
    let own = Own::of(alloc, own_block(blocks, part), signals.seed)?;
    Ok(Links {
        signals,
        blocks,
        own,
    })
}

/// Whether the parts of a text keep the link rules and the limits, among these signals and blocks;
/// else the first fault, and there the lowest rule. It refuses for memory only where memory is
/// refused.
pub fn check_links<'a>(
    alloc: Global,
    signals: &'a SignalTable<'a>,
    blocks: &'a BlockTable<'a>,
    parts: &[Seq<Event<'_>>],
) -> Result<(), Fault<LinkRule>>
    ensures { MatchResult result (λ _. links_told signals.now.kinds.now blocks.now.blocks.now
        parts.now ≡ Option.None) (IsTold (links_told signals.now.kinds.now blocks.now.blocks.now
        parts.now)) }
{
    let mut counted = Counted::none();
    for part in 0..parts.len() {
        let links = match links_of(alloc, signals, blocks, part) {
            Ok(links) => links,
            Err(_) => return Err(Fault::Memory),
        };
        let mut before = Before {
            entered: NameSet::new(alloc, signals.seed),
            counted,
        };
        for event in parts[part].as_slice() {
            if let Some(rule) = before.rule_at(&links, event) {
                let line = event.line();
                return Err(Fault::Rule { rule, line });
            }
            match before.see(&links, event.kind()) {
                Ok(()) => {}
                Err(_) => return Err(Fault::Memory),
            }
        }
        counted = before.counted;
    }
    Ok(())
}
