// Signals and entries by their names.
ghost use Rattle.std.specs.Prelude.{◌≡◌, IfOk};
ghost use Rattle.std.specs.Str.{bytes_eq};
ghost use Rattle.std.specs.List.{IsDistinct};
ghost use Rattle.signal_file.specs.Rules.{IsDirectory, entry_of, signal_of};
ghost use Rattle.exchange_model.specs.Names.{names_of_blocks, names_of_signals};

use crate::names::Names;
use exchange_model::{Exchange, SignalKind};
use plex_num::Memory;
use std::alloc::Global;

/// The names of an exchange's signals and blocks, in the order of their numbers.
pub struct Directory {
    pub signals: Names,
    pub blocks: Names,
}

impl Drop for Directory {
    fn drop(self) {
        let Directory {
            signals: _,
            blocks: _,
        } = self;
    }
}

/// An exchange, and what it has by its names. The files about it are read by this.
#[derive(Drop)]
pub struct Known<'a> {
    pub exchange: &'a Exchange,
    pub names: &'a Directory,
    pub ghost named: { IsDirectory exchange.now names.now },
}

/// A single buffered signal: its number, and how many values it has.
#[derive(Clone, Copy)]
pub struct Signal {
    pub number: u32,
    pub count: u8,
}

/// What an exchange has by its names. It is made once for each exchange, and each file about that
/// is read by it. Memory is the only reason for an error.
#[tactic(auto, using(crate::proofs::Found::directory))]
pub fn directory_of(alloc: Global, exchange: &Exchange) -> Result<Directory, Memory>
    ensures { IfOk result (λ directory. IsDirectory exchange.now directory) }
{
    exchange.kept();
    let signals = signal_names(alloc, exchange)?;
    let blocks = block_names(alloc, exchange)?;
    Ok(Directory { signals, blocks })
}

#[tactic(auto, using(plex_num::proofs::Names::new_name))]
fn signal_names(alloc: Global, exchange: &Exchange) -> Result<Names, Memory>
    requires { IsDistinct bytes_eq (names_of_signals exchange.now.signals) }
    ensures { IfOk result (λ names. names ≡ names_of_signals exchange.now.signals) }
{
    let mut names = Names::new(alloc);
    for signal in exchange.signals.as_slice() {
        names.add(alloc, signal.name().as_slice())?;
    }
    Ok(names)
}

#[tactic(auto, using(plex_num::proofs::Names::new_name))]
fn block_names(alloc: Global, exchange: &Exchange) -> Result<Names, Memory>
    requires { IsDistinct bytes_eq (names_of_blocks exchange.now.blocks) }
    ensures { IfOk result (λ names. names ≡ names_of_blocks exchange.now.blocks) }
{
    let mut names = Names::new(alloc);
    for block in exchange.blocks.as_slice() {
        names.add(alloc, block.name.as_slice())?;
    }
    Ok(names)
}

impl<'a> Known<'a> {
    /// The single buffered signal of this name.
    pub fn signal_of(&self, name: &[u8]) -> Option<Signal>
        ensures { result ≡ signal_of self.now.exchange.now name.now }
    {
        let exchange = self.exchange;
        let Some(number) = self.names.signals.place(name) else {
            return None;
        };
        match exchange.signals.get(number) {
            Some(SignalKind::Buffered { count, .. }) => Some(Signal {
                number: number as u32,
                count: *count,
            }),
            _ => None,
        }
    }

    /// The entry of a signal at the block of this name.
    pub fn entry_of(&self, signal: u32, block: &[u8]) -> Option<u32>
        ensures { result ≡ entry_of self.now.exchange.now signal block.now }
    {
        let Some(block) = self.names.blocks.place(block) else {
            return None;
        };
        self.exchange.entry_of(block as u32, signal)
    }
}
