// What an expression sees.
ghost use Rattle.std.specs.Prelude.{◌≡◌, ◌+◌, slice_get, slice_index, Result, Ok};
ghost use Rattle.source_meaning.specs.Value.{answer_of, field_value, holder_value};

use crate::place::{check_pointer, place_of};
use crate::words::value_at;
use exchange_model::{Exchange, Holder};
use job_types::{Fault, Held};
use std::marker::Model;

/// The temporaries, the stored words, the records held, the cell of the block's first variable, and
/// the exchange.
#[derive(Drop)]
pub struct View<'a> {
    pub exchange: &'a Exchange,
    pub temps: &'a [u32],
    pub store: &'a [u32],
    pub chain: &'a [Held],
    pub first: u32,
}

impl<'a> Model for View<'a> {
    ghost use Rattle.source_meaning.specs.Value.{Sight};
    ghost use Rattle.source_meaning.specs.Config.{files_of};

    ghost Value = { Sight };

    ghost view = { λ v. record {
      temps = v.temps.now;
      store = v.store.now;
      chain = v.chain.now;
      first = v.first;
      files = files_of v.exchange.now;
    } };
}

impl<'a> View<'a> {
    /// The value of a variable of the block.
    pub fn variable(&self, variable: u32) -> u32
        ensures { result ≡ slice_index self.now.store (self.now.first + variable) }
    {
        value_at(self.store, self.first as usize + variable as usize)
    }

    /// The value of a temporary.
    pub fn temporary(&self, temp: u8) -> u32
        ensures { result ≡ slice_index self.now.temps temp }
    {
        value_at(self.temps, temp as usize)
    }

    /// The value of a holder of a reference.
    pub fn holder(&self, holder: Holder) -> u32
        ensures { Ok result ≡ answer_of (holder_value holder self.now) }
    {
        match holder {
            Holder::Temporary(temp) => self.temporary(temp),
            Holder::Variable(variable) => self.variable(variable),
        }
    }

    /// The value of a field of the record whose number a temporary has, or what is wrong with the
    /// pointer.
    pub fn field(&self, file: u32, field: u32, pointer: u8) -> Result<u32, Fault>
        ensures { result ≡ answer_of (field_value (slice_get self.now.files file) file field
            (slice_index self.now.temps pointer) self.now) }
    {
        let number = self.temporary(pointer);
        match place_of(self.exchange, file) {
            None => Ok(0),
            Some(place) => {
                check_pointer(self.chain, file, &place, number)?;
                Ok(value_at(self.store, place.field_cell(number, field)))
            }
        }
    }
}
