// The rules of a block.
ghost use Rattle.std.specs.Prelude.{◌≡◌, ◌^◌, not, nat_lt, ℕ, List, Some, OnOk, MatchResult};
ghost use Rattle.std.specs.Prelude.{Option, is_some};
ghost use Rattle.std.specs.Str.{bytes_eq};
ghost use Rattle.indexmap.specs.IndexSet.{contains};
ghost use Rattle.first_fault.specs.First.{any, first_broken};
ghost use Rattle.first_fault.specs.Told.{told};
ghost use Rattle.signal_types.specs.Found.{number_in, kind_in};
ghost use Rattle.text_events.specs.Seen.{note_of, head_seen};
ghost use Rattle.text_rules.specs.Blocks.{labels, broken, all_rules, known_of, serves};
ghost use Rattle.text_rules.specs.Blocks.{is_plain_file, is_forlopp_file, is_field_of, stands};
ghost use Rattle.text_rules.specs.Blocks.{other_data, answer_of, is_other_kind, same_number};
ghost use Rattle.text_rules.specs.Blocks.{retrieves, asks, apart, wrong_count, wrong_fresh};
ghost use Rattle.text_rules.specs.Blocks.{KnowsNothing, Sees};
ghost use Rattle.rule_checks.specs.Tables.{known_in, AnAround, IsTold};
ghost use Rattle.text_rules.specs.Texts.{line_of, blocks_told};

use crate::block_tables::{Chosen, Declared, labels_of, operand_of};
use crate::names::NameSet;
use crate::operand_counts::Operands;
use exchange_model::SignalKind;
use plex_limits::{MOST_OPERANDS, MOST_RECORDS, MOST_TEMPORARIES};
use plex_num::{Memory, Seed, Seq};
use signal_types::{SignalTable, count_of_signal};
use std::alloc::Global;
use text_events::{Event, EventKind, Head, Meaning, Need, Role};
use text_rules::{BlockRule, BlockTable, Fault};
use token_grammar::KeptName;

// Whether a value is not below 2^bits.
#[tactic(auto, using(crate::proofs::Widths::fits_wide))]
fn is_too_large(value: u32, bits: u32) -> bool
    ensures { result ≡ not (nat_lt value (2 ^ bits)) }
{
    bits < 32 && value >= 1 << bits
}

fn serves(need: Need, meaning: Option<Meaning>) -> bool
    ensures { result ≡ serves need meaning }
{
    match (need, meaning) {
        (Need::Value, Some(Meaning::Variable(_))) => true,
        (Need::Value, Some(Meaning::Temporary(_))) => true,
        (Need::Temporary, Some(Meaning::Temporary(_))) => true,
        (Need::Field, Some(Meaning::Field { .. })) => true,
        _ => false,
    }
}

fn is_plain_file(meaning: Option<Meaning>) -> bool
    ensures { result ≡ is_plain_file meaning }
{
    match meaning {
        Some(Meaning::File { file: _, forlopp }) => !forlopp,
        _ => false,
    }
}

fn is_forlopp_file(meaning: Option<Meaning>) -> bool
    ensures { result ≡ is_forlopp_file meaning }
{
    match meaning {
        Some(Meaning::File { file: _, forlopp }) => forlopp,
        _ => false,
    }
}

fn is_field_of(file: Option<Meaning>, field: Option<Meaning>) -> bool
    ensures { result ≡ is_field_of file field }
{
    match (file, field) {
        (Some(Meaning::File { file, .. }), Some(Meaning::Field { file: owner, .. })) => {
            file == owner
        }
        _ => false,
    }
}

fn stands(role: Role, kind: &SignalKind) -> bool
    ensures { result ≡ stands role (Some kind.now) }
{
    match (role, kind) {
        (Role::Received, SignalKind::Buffered { .. }) => true,
        (Role::Received, SignalKind::Direct { .. }) => true,
        (Role::Received, SignalKind::Combined { .. }) => true,
        (Role::Sent { .. }, SignalKind::Buffered { .. }) => true,
        (Role::Sent { .. }, SignalKind::Direct { .. }) => true,
        (Role::Sent { .. }, SignalKind::Combined { .. }) => true,
        (Role::Sent { reference }, SignalKind::Outside { .. }) => !reference,
        (Role::Transferred, SignalKind::Direct { .. }) => true,
        (Role::Answer, SignalKind::Answer { .. }) => true,
        _ => false,
    }
}

// Whether a signal of this name may not stand so.
fn is_misplaced(signals: &SignalTable, name: &KeptName, role: Role) -> bool
    ensures { result ≡ not (stands role (kind_in signals.now.kinds.now name.now)) }
{
    match signals.kind(name) {
        Some(kind) => !stands(role, kind),
        None => true,
    }
}

fn is_buffered(kind: &SignalKind) -> bool
    ensures { is_other_kind (Some kind.now) ≡ not result }
{
    match kind {
        SignalKind::Buffered { .. } => true,
        _ => false,
    }
}

fn same_number(a: Option<u32>, b: Option<u32>) -> bool
    ensures { result ≡ same_number a b }
{
    match (a, b) {
        (Some(a), Some(b)) => a == b,
        _ => false,
    }
}

// Whether the signal of this name has another number of values.
fn has_other_data(signals: &SignalTable, name: &KeptName, count: usize) -> bool
    ensures { result ≡ other_data count (kind_in signals.now.kinds.now name.now) }
{
    match signals.kind(name) {
        Some(kind) => count != count_of_signal(kind) as usize,
        None => false,
    }
}

// Whether the signal of this name is of another kind than a single buffered one.
fn has_other_kind(signals: &SignalTable, name: &KeptName) -> bool
    ensures { result ≡ is_other_kind (kind_in signals.now.kinds.now name.now) }
{
    match signals.kind(name) {
        Some(kind) => !is_buffered(kind),
        None => false,
    }
}

// The number of the answer of the combined signal of this name.
fn answer_of(signals: &SignalTable, name: &KeptName) -> Option<u32>
    ensures { result ≡ answer_of (kind_in signals.now.kinds.now name.now) }
{
    match signals.kind(name) {
        Some(SignalKind::Combined { answer, .. }) => Some(*answer),
        _ => None,
    }
}

// Whether a statement retrieves this answer.
fn retrieves(signals: &SignalTable, answer: Option<u32>, head: Head<'_>) -> bool
    ensures { result ≡ retrieves (number_in signals.now.kinds.now) answer (head_seen head.entry) }
{
    match head {
        Head::Retrieves { signal, count: _ } => same_number(answer, signals.number(signal)),
        _ => false,
    }
}

// Whether a statement sends the combined signal whose answer has this name.
fn asks(signals: &SignalTable, answer: &KeptName, head: Head<'_>) -> bool
    ensures { result ≡ asks (kind_in signals.now.kinds.now)
        (number_in signals.now.kinds.now answer.now) (head_seen head.entry) }
{
    match head {
        Head::Sends { signal, .. } => {
            same_number(answer_of(signals, signal), signals.number(answer))
        }
        _ => false,
    }
}

fn stands_apart(signals: &SignalTable, here: Head<'_>, before: Head<'_>, after: Head<'_>) -> bool
    ensures { result ≡ apart (number_in signals.now.kinds.now) (kind_in signals.now.kinds.now)
        (head_seen here.entry) (head_seen before.entry) (head_seen after.entry) }
{
    match here {
        Head::Sends { signal, .. } => {
            let answer = answer_of(signals, signal);
            answer.is_some() && !retrieves(signals, answer, after)
        }
        Head::Retrieves { signal, .. } => !asks(signals, signal, before),
        _ => false,
    }
}

/// What stands around the tables of a block: its labels, the signals, and the blocks of the text.
pub(crate) struct Around<'a> {
    pub(crate) labels: NameSet,
    pub(crate) signals: &'a SignalTable<'a>,
    pub(crate) blocks: &'a BlockTable<'a>,
}

impl Drop for Around<'_> {
    fn drop(self) {
        let Around {
            labels: _,
            signals: _,
            blocks: _,
        } = self;
    }
}

/// What the events of a block so far have told.
#[derive(Drop)]
pub(crate) struct Tables {
    pub(crate) declared: Declared,
    pub(crate) counts: Operands,
    pub(crate) chosen: Chosen,
}

impl Tables {
    fn new(alloc: Global, seed: Seed) -> Tables
        ensures { (a : AnAround) → KnowsNothing (known_in result a) }
    {
        Tables {
            declared: Declared::new(alloc, seed),
            counts: Operands::new(alloc),
            chosen: Chosen::new(alloc, seed),
        }
    }

    /// Takes in one event more.
    fn see(&mut self, kind: EventKind<'_>) -> Result<(), Memory>
        ensures { OnOk result ((a : AnAround) → Sees (known_in self.old a) (note_of kind.entry)
            (known_in self.new a)) }
    {
        self.declared.see(kind)?;
        self.counts.see(kind)?;
        self.chosen.see(kind)?;
        Ok(())
    }

    fn has_wrong_count(&self, around: &Around<'_>, here: Head<'_>) -> bool
        ensures { result ≡ wrong_count (known_in self.now around.now) (head_seen here.entry) }
    {
        let signals = around.signals;
        match here {
            Head::Enters { signal, count } => has_other_data(signals, signal, count),
            Head::Sends { signal, count, .. } => has_other_data(signals, signal, count),
            Head::Retrieves { signal, count } => has_other_data(signals, signal, count),
            Head::Returns { signal, count } => has_other_data(signals, signal, count),
            _ => false,
        }
    }

    fn has_wrong_fresh(&self, around: &Around<'_>, here: Head<'_>) -> bool
        ensures { result ≡ wrong_fresh (known_in self.now around.now) (head_seen here.entry) }
    {
        match here {
            Head::Sends { signal, fresh, .. } => fresh && has_other_kind(around.signals, signal),
            _ => false,
        }
    }

    fn is_broken(&self, around: &Around<'_>, rule: BlockRule, kind: EventKind<'_>) -> bool
        ensures { result ≡ broken rule (known_in self.now around.now) (note_of kind.entry) }
    {
        match rule {
            BlockRule::DeclaredTwice => match kind {
                EventKind::Declares { name, .. } => self.declared.meaning(name).is_some(),
                _ => false,
            },
            BlockRule::Width => match kind {
                EventKind::Width { bits } => bits == 0 || bits > 32,
                _ => false,
            },
            BlockRule::Init => match kind {
                EventKind::Init { value, bits } => is_too_large(value, bits),
                _ => false,
            },
            BlockRule::Size => match kind {
                EventKind::Size { records } => records == 0 || records as usize > MOST_RECORDS,
                _ => false,
            },
            BlockRule::Temporaries => match kind {
                EventKind::Declares {
                    name: _,
                    meaning: Meaning::Temporary(number),
                } => number as usize == MOST_TEMPORARIES,
                _ => false,
            },
            BlockRule::WrongName => match kind {
                EventKind::Uses { name, need } => !serves(need, self.declared.meaning(name)),
                EventKind::Reads { name, need, .. } => !serves(need, self.declared.meaning(name)),
                _ => false,
            },
            BlockRule::NoLabel => match kind {
                EventKind::Goes { label } => !around.labels.has(label),
                _ => false,
            },
            BlockRule::NotSearched => match kind {
                EventKind::Searches { file } => !is_plain_file(self.declared.meaning(file)),
                EventKind::Compares { field, file } => {
                    !is_field_of(self.declared.meaning(file), self.declared.meaning(field))
                }
                _ => false,
            },
            BlockRule::NotHeld => match kind {
                EventKind::Holds { file } => !is_forlopp_file(self.declared.meaning(file)),
                _ => false,
            },
            BlockRule::WrongSignal => match kind {
                EventKind::Names { signal, role } => is_misplaced(around.signals, signal, role),
                _ => false,
            },
            BlockRule::WrongCount => self.has_wrong_count(around, kind.begun()),
            BlockRule::Apart => {
                stands_apart(around.signals, kind.begun(), kind.before(), kind.after())
            }
            BlockRule::Operands => match operand_of(kind) {
                Some(owner) => self.counts.count(owner) == MOST_OPERANDS as u64,
                None => false,
            },
            BlockRule::WrongFresh => self.has_wrong_fresh(around, kind.begun()),
            BlockRule::ChosenTwice => match kind {
                EventKind::Chooses { owner, number } => self.chosen.has(owner, number),
                _ => false,
            },
            BlockRule::NoBlock => match kind {
                EventKind::Refers { block, .. } => around.blocks.number(block).is_none(),
                _ => false,
            },
        }
    }
}

impl Tables {
    /// The first rule that an event breaks.
    fn rule_at(&self, around: &Around<'_>, event: &Event<'_>) -> Option<BlockRule>
        ensures { result ≡ first_broken (λ r k e. broken r k e.note) all_rules
            (known_in self.now around.now) event.now }
    {
        let kind = event.kind();
        for rule in RULES {
            if self.is_broken(around, rule, kind) {
                return Some(rule);
            }
        }
        None
    }
}

/// The rules in the order of their numbers.
const RULES: [BlockRule; 16] = [
    BlockRule::DeclaredTwice,
    BlockRule::Width,
    BlockRule::Init,
    BlockRule::Size,
    BlockRule::Temporaries,
    BlockRule::WrongName,
    BlockRule::NoLabel,
    BlockRule::NotSearched,
    BlockRule::NotHeld,
    BlockRule::WrongSignal,
    BlockRule::WrongCount,
    BlockRule::Apart,
    BlockRule::Operands,
    BlockRule::WrongFresh,
    BlockRule::ChosenTwice,
    BlockRule::NoBlock,
];

/// Whether a block keeps the rules; else its first fault, and there the lowest rule.
fn check_block(
    alloc: Global,
    around: &Around<'_>,
    events: &[Event<'_>],
) -> Result<(), Fault<BlockRule>>
    requires { (n : List ℕ) → contains bytes_eq around.now.labels.names n
        ≡ any (labels n) events.now }
    ensures { MatchResult result (λ _. told (λ r k e. broken r k e.note) all_rules line_of
        (known_of around.now.signals.now.kinds.now around.now.blocks.now.blocks.now events.now)
        events.now ≡ Option.None) (IsTold (told (λ r k e. broken r k e.note) all_rules line_of
        (known_of around.now.signals.now.kinds.now around.now.blocks.now.blocks.now events.now)
        events.now)) }
{
    let mut tables = Tables::new(alloc, around.signals.seed);
    for event in events {
        if let Some(rule) = tables.rule_at(around, event) {
            let line = event.line();
            return Err(Fault::Rule { rule, line });
        }
        match tables.see(event.kind()) {
            Ok(()) => {}
            Err(_) => return Err(Fault::Memory),
        }
    }
    Ok(())
}

fn check_part(
    alloc: Global,
    signals: &SignalTable<'_>,
    blocks: &BlockTable<'_>,
    events: &[Event<'_>],
) -> Result<(), Fault<BlockRule>>
    ensures { MatchResult result (λ _. told (λ r k e. broken r k e.note) all_rules line_of
        (known_of signals.now.kinds.now blocks.now.blocks.now events.now) events.now ≡ Option.None)
        (IsTold (told (λ r k e. broken r k e.note) all_rules line_of
        (known_of signals.now.kinds.now blocks.now.blocks.now events.now) events.now)) }
{
    let labels = match labels_of(alloc, events, signals.seed) {
        Ok(labels) => labels,
        Err(_) => return Err(Fault::Memory),
    };
    let around = Around {
        labels,
        signals,
        blocks,
    };
    check_block(alloc, &around, events)
}

/// Whether the parts of a text keep the rules of blocks, among these signals and blocks; else the
/// first fault, and there the lowest rule. It refuses for memory only where memory is refused.
pub fn check_blocks(
    alloc: Global,
    signals: &SignalTable<'_>,
    blocks: &BlockTable<'_>,
    parts: &[Seq<Event<'_>>],
) -> Result<(), Fault<BlockRule>>
    ensures { MatchResult result (λ _. blocks_told signals.now.kinds.now blocks.now.blocks.now
        parts.now ≡ Option.None) (IsTold (blocks_told signals.now.kinds.now blocks.now.blocks.now
        parts.now)) }
{
    for part in parts {
        match check_part(alloc, signals, blocks, part.as_slice()) {
            Ok(()) => {}
            Err(fault) => return Err(fault),
        }
    }
    Ok(())
}
