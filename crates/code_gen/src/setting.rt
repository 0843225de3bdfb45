// Where code is made.
ghost use Rattle.std.specs.Prelude.{◌≡◌, ◌+◌, slice_get, Some, None, IfOk, MatchOption};
ghost use Rattle.code_gen.specs.Settings.{IsFileIn, IsSetting, IsVariableIn, placed_of, places_in};

use crate::addresses::Addresses;
use crate::lookup::{enters_at, label_place, place_of_enter, signal_of, width_of};
use crate::receivers::receivers_of;
use exchange_model::{Cell, Exchange, FilePlace, SignalKind};
use plex_num::{Memory, Seq};
use std::alloc::Global;
use store_layout::{Layout, word_of};

/// A block of an exchange, with the layout and the addresses of the places of all texts.
#[derive(Clone, Copy)]
pub struct Setting<'a> {
    pub exchange: &'a Exchange,
    pub layout: &'a Layout,
    pub addresses: &'a Addresses,
    pub block: u32,
}

/// Where the code of a statement stands: the statement's point, the number of loops around it, and
/// the code's address.
#[derive(Clone, Copy)]
pub struct Spot {
    pub point: u32,
    pub loops: u8,
    pub start: u32,
}

impl<'a> Setting<'a> {
    /// The address of a label of the block.
    #[tactic(auto, unfolding(crate::specs::Settings::places_in))]
    pub fn label(&self, label: u32) -> u32
        ensures { result ≡ (places_in self.now).label label }
    {
        let place = label_place(self.exchange, self.block, label);
        self.addresses.at(self.block, place)
    }

    /// The address at which a signal enters a block, which is behind the jump of its ENTER.
    #[tactic(auto, unfolding(crate::specs::Settings::places_in), using(crate::proofs::Lookups::enter_is, crate::proofs::Lookups::no_enter_is))]
    pub fn enter(&self, block: u32, signal: u32) -> Result<u32, Memory>
        ensures { IfOk result (λ a. a ≡ (places_in self.now).enter block signal) }
    {
        let place = place_of_enter(self.exchange, block, signal);
        if enters_at(self.exchange, block, place) {
            self.addresses.at(block, place).checked_add(1).ok_or(Memory)
        } else {
            Ok(self.addresses.end)
        }
    }

    /// The number of the entry that a signal has at a block.
    #[tactic(auto, unfolding(crate::specs::Settings::places_in))]
    pub fn entry(&self, block: u32, signal: u32) -> u32
        ensures { result ≡ (places_in self.now).entry block signal }
    {
        self.exchange.entry_of(block, signal).unwrap_or(0)
    }

    /// The blocks that receive a signal, in their order.
    #[tactic(auto, unfolding(crate::specs::Settings::places_in))]
    pub fn receivers(&self, alloc: Global, signal: u32) -> Result<Seq<u32>, Memory>
        ensures { IfOk result (λ list. list ≡ (places_in self.now).receivers signal) }
    {
        receivers_of(alloc, self.exchange, signal)
    }

    /// The width of a variable of the block.
    #[tactic(auto, unfolding(crate::specs::Settings::places_in))]
    pub fn width(&self, variable: u32) -> u8
        ensures { result ≡ (places_in self.now).width variable }
    {
        width_of(self.exchange, self.block, variable)
    }

    /// The word of a variable of the block.
    #[tactic(auto, using(crate::proofs::Inside::variable_cell))]
    pub fn word(&self, variable: u32) -> u32
        requires { IsVariableIn self.now variable }
        ensures { result ≡ (places_in self.now).site.first + variable }
    {
        let cell = Cell::Variable {
            block: self.block,
            index: variable,
        };
        word_of(self.layout, cell)
    }

    /// The signal of this number; `None` exactly where there is none.
    #[tactic(auto, unfolding(crate::specs::Settings::places_in))]
    pub fn signal(&self, number: u32) -> Option<&'a SignalKind>
        ensures { MatchOption result (slice_get (places_in self.now).signals number ≡ None)
            (λ s. slice_get (places_in self.now).signals number ≡ Some s.now) }
    {
        signal_of(self.exchange, number)
    }

    /// The file of this number; `None` exactly where there is none.
    pub fn file(&self, number: u32) -> Option<FilePlace<'a>>
        requires { IsSetting self.now }
        ensures { MatchOption result (slice_get (places_in self.now).site.files number ≡ None)
            (λ p. IsFileIn self.now number (placed_of p)) }
    {
        self.exchange.file(number)
    }
}
