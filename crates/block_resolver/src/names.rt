// What a name gives where it is used.
ghost use Rattle.std.specs.Prelude.{◌≡◌, IfOk, Option};
ghost use Rattle.std.specs.Option.{option_map};
ghost use Rattle.exchange_model.specs.declared.stmt.Receiver.TheVariants as receiver;
ghost use Rattle.text_rules.specs.Links.{is_outside};
ghost use Rattle.signal_types.specs.Found.{kind_in};
ghost use Rattle.resolved_block.specs.Names.{meanings_of};
ghost use Rattle.block_resolver.specs.Tables.{env_in, meanings_in};
ghost use Rattle.resolved_block.specs.Meant.{temporary_of, file_of, field_file, field_place};
ghost use Rattle.resolved_block.specs.Meant.{label_of, holder_of, value_in, target_in, signal_of};
ghost use Rattle.resolved_block.specs.Meant.{block_of, referred, receiver_of, sent_to};

use crate::declared::Declared;
use crate::numbers::byte_of;
use exchange_model::{Expr, Factor, Holder, Receiver, SignalKind, StmtKind};
use plex_ast::{Boxed, Named, Reference, ReferenceKind};
use plex_num::Memory;
use signal_types::SignalTable;
use std::alloc::Global;
use text_events::{Event, Meaning};
use text_rules::BlockTable;

/// What names stand for in a block: those that it declares, those of signals, and those of the
/// blocks of the text.
pub struct Names<'a> {
    pub(crate) declared: Declared,
    pub(crate) signals: &'a SignalTable<'a>,
    pub(crate) blocks: &'a BlockTable<'a>,
}

impl Drop for Names<'_> {
    fn drop(self) {
        let Names {
            declared: _,
            signals: _,
            blocks: _,
        } = self;
    }
}

fn is_outside(kind: &SignalKind) -> bool
    ensures { result ≡ is_outside (Option.Some kind.now) }
{
    match kind {
        SignalKind::Outside { .. } => true,
        _ => false,
    }
}

/// A block of a number as a receiver.
fn receiver_at(number: Option<u32>) -> Option<Receiver>
    ensures { result ≡ option_map receiver.Block number }
{
    match number {
        Some(number) => Some(Receiver::Block(number)),
        None => None,
    }
}

impl<'a> Names<'a> {
    /// Those of a block with these events, whose first file has the number `first_file`.
    pub(crate) fn of(
        alloc: Global,
        signals: &'a SignalTable<'a>,
        blocks: &'a BlockTable<'a>,
        events: &[Event<'_>],
        first_file: u32,
    ) -> Result<Names<'a>, Memory>
        ensures declared { IfOk result
            (λ n. meanings_in n.declared ≡ meanings_of first_file events.now) }
        ensures signals { IfOk result (λ n. n.signals.now ≡ signals.now) }
        ensures blocks { IfOk result (λ n. n.blocks.now ≡ blocks.now) }
    {
        let declared = Declared::of(alloc, events, first_file, signals.seed)?;
        Ok(Names {
            declared,
            signals,
            blocks,
        })
    }

    pub(crate) fn temporary(&self, name: &Named) -> u8
        ensures { result ≡ temporary_of (env_in self.now) name.now }
    {
        match self.declared.meaning(&name.name) {
            Some(Meaning::Temporary(temporary)) => byte_of(temporary),
            _ => 0,
        }
    }

    pub(crate) fn file(&self, name: &Named) -> u32
        ensures { result ≡ file_of (env_in self.now) name.now }
    {
        match self.declared.meaning(&name.name) {
            Some(Meaning::File { file, .. }) => file,
            _ => 0,
        }
    }

    /// The file of a field.
    pub(crate) fn field_file(&self, name: &Named) -> u32
        ensures { result ≡ field_file (env_in self.now) name.now }
    {
        match self.declared.meaning(&name.name) {
            Some(Meaning::Field { file, .. }) => file,
            _ => 0,
        }
    }

    /// The place of a field in its file.
    pub(crate) fn field_place(&self, name: &Named) -> u32
        ensures { result ≡ field_place (env_in self.now) name.now }
    {
        match self.declared.meaning(&name.name) {
            Some(Meaning::Field { field, .. }) => field,
            _ => 0,
        }
    }

    pub(crate) fn label(&self, name: &Named) -> u32
        ensures { result ≡ label_of (env_in self.now) name.now }
    {
        match self.declared.meaning(&name.name) {
            Some(Meaning::Label(label)) => label,
            _ => 0,
        }
    }

    /// A name alone in an expression.
    pub(crate) fn value(&self, name: &Named) -> Factor
        ensures { result ≡ value_in ((env_in self.now).name name.now.name) }
    {
        match self.declared.meaning(&name.name) {
            Some(Meaning::Variable(variable)) => Factor::Variable(variable),
            Some(Meaning::Temporary(temporary)) => Factor::Temporary(byte_of(temporary)),
            _ => Factor::Number(0),
        }
    }

    /// An assignment to a name.
    pub(crate) fn target(&self, name: &Named, value: Expr) -> StmtKind
        ensures { result ≡ target_in ((env_in self.now).name name.now.name) value }
    {
        match self.declared.meaning(&name.name) {
            Some(Meaning::Variable(variable)) => StmtKind::SetVariable { variable, value },
            Some(Meaning::Temporary(temporary)) => StmtKind::SetTemp {
                temp: byte_of(temporary),
                value,
            },
            _ => StmtKind::SetTemp { temp: 0, value },
        }
    }

    /// A name that holds a reference.
    fn holder(&self, name: &Named) -> Holder
        ensures { result ≡ holder_of (env_in self.now) name.now }
    {
        match self.declared.meaning(&name.name) {
            Some(Meaning::Variable(variable)) => Holder::Variable(variable),
            Some(Meaning::Temporary(temporary)) => Holder::Temporary(byte_of(temporary)),
            _ => Holder::Temporary(0),
        }
    }

    /// The number of a signal.
    pub(crate) fn signal(&self, name: &Named) -> u32
        ensures { result ≡ signal_of (env_in self.now) name.now }
    {
        self.signals.number(&name.name).unwrap_or(0)
    }

    /// The number of a block.
    pub(crate) fn block(&self, name: &Named) -> u32
        ensures { result ≡ block_of (env_in self.now) name.now }
    {
        self.blocks.number(&name.name).unwrap_or(0)
    }

    /// The block that a reference names, or its holder.
    fn referred(&self, kind: &ReferenceKind) -> Option<Receiver>
        ensures { result ≡ referred (env_in self.now) kind.now }
    {
        match kind {
            ReferenceKind::Block { name } => receiver_at(self.blocks.number(&name.name)),
            ReferenceKind::Held { name } => Some(Receiver::Held(self.holder(name))),
        }
    }

    /// Where a signal goes: as its reference says, else to the first block that receives it.
    fn receiver(&self, signal: &Named, reference: &Option<Boxed<Reference>>) -> Option<Receiver>
        ensures { result ≡ receiver_of (env_in self.now) signal.now reference.now }
    {
        match reference {
            None => receiver_at(self.blocks.first_receiver(&signal.name)),
            Some(reference) => self.referred(&reference.get().kind),
        }
    }

    /// Whether a signal leaves the exchange.
    #[tactic(auto, using(crate::proofs::Found::outside_none, crate::proofs::Found::outside_some))]
    fn leaves(&self, signal: &Named) -> bool
        ensures { result ≡ is_outside (kind_in (env_in self.now).signals signal.now.name) }
    {
        match self.signals.kind(&signal.name) {
            Some(kind) => is_outside(kind),
            None => false,
        }
    }

    /// Where a signal goes; one that leaves the exchange goes to no block.
    pub(crate) fn sent_to(
        &self,
        signal: &Named,
        reference: &Option<Boxed<Reference>>,
    ) -> Option<Receiver>
        ensures { result ≡ sent_to (env_in self.now) signal.now reference.now }
    {
        if self.leaves(signal) {
            None
        } else {
            self.receiver(signal, reference)
        }
    }
}
