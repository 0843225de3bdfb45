// The rules of signals and of names of blocks.
ghost use Rattle.std.specs.Prelude.{◌≡◌, Option, OnOk, MatchResult};
ghost use Rattle.first_fault.specs.First.{first_broken};
ghost use Rattle.text_events.specs.Seen.{note_of};
ghost use Rattle.text_rules.specs.Signals.{broken, all_rules, KnowsNothing, Sees};
ghost use Rattle.rule_checks.specs.Tables.{names_in, IsTold};
ghost use Rattle.text_rules.specs.Texts.{signals_told};

use crate::names::NameSet;
use plex_limits::MOST_VALUES;
use plex_num::{Memory, Seed, Seq};
use std::alloc::Global;
use text_events::{Event, EventKind};
use text_rules::{Fault, SignalRule};

/// The names of signals with their answers, and those of blocks, before an event.
#[derive(Drop)]
pub(crate) struct Seen {
    pub(crate) signals: NameSet,
    pub(crate) blocks: NameSet,
}

impl Seen {
    fn new(alloc: Global, seed: Seed) -> Seen
        ensures { KnowsNothing (names_in result) }
    {
        Seen {
            signals: NameSet::new(alloc, seed),
            blocks: NameSet::new(alloc, seed),
        }
    }

    /// Takes in one event more.
    fn see(&mut self, kind: EventKind<'_>) -> Result<(), Memory>
        ensures { OnOk result (Sees (names_in self.old) (note_of kind.entry) (names_in self.new)) }
    {
        match kind {
            EventKind::Signal { name } => self.signals.add(name),
            EventKind::BlockName { name } => self.blocks.add(name),
            _ => Ok(()),
        }
    }

    fn is_broken(&self, rule: SignalRule, kind: EventKind<'_>) -> bool
        ensures { result ≡ broken rule (names_in self.now) (note_of kind.entry) }
    {
        match rule {
            SignalRule::Once => match kind {
                EventKind::Signal { name } => self.signals.has(name),
                EventKind::BlockName { name } => self.blocks.has(name),
                _ => false,
            },
            SignalRule::FewValues => match kind {
                EventKind::Carries { count } => count as usize > MOST_VALUES,
                _ => false,
            },
        }
    }

    /// The first rule that an event breaks.
    fn rule_at(&self, event: &Event<'_>) -> Option<SignalRule>
        ensures { result ≡ first_broken (λ r k e. broken r k e.note) all_rules (names_in self.now)
            event.now }
    {
        let kind = event.kind();
        if self.is_broken(SignalRule::Once, kind) {
            return Some(SignalRule::Once);
        }
        if self.is_broken(SignalRule::FewValues, kind) {
            return Some(SignalRule::FewValues);
        }
        None
    }
}

/// Whether the parts of a text keep the rules of signals and of names of blocks; else the first
/// fault, and there the lowest rule. It refuses for memory only where memory is refused. The seed
/// hangs on the names of the text.
pub fn check_signals(
    alloc: Global,
    parts: &[Seq<Event<'_>>],
    seed: Seed,
) -> Result<(), Fault<SignalRule>>
    ensures { MatchResult result (λ _. signals_told parts.now ≡ Option.None)
        (IsTold (signals_told parts.now)) }
{
    let mut seen = Seen::new(alloc, seed);
    for part in parts {
        for event in part.as_slice() {
            if let Some(rule) = seen.rule_at(event) {
                let line = event.line();
                return Err(Fault::Rule { rule, line });
            }
            match seen.see(event.kind()) {
                Ok(()) => {}
                Err(_) => return Err(Fault::Memory),
            }
        }
    }
    Ok(())
}
