// What has a number is told by its name.
ghost use Rattle.std.specs.Prelude.{◌≡◌, ◌++◌, OnOk};
ghost use Rattle.exchange_model.specs.Names.{name_of_entry};

use crate::exchange::Exchange;
use plex_num::{Memory, Seq};

impl Exchange {
    /// Appends `SIGNAL BLOCK` of an entry by its number, counted from 0; nothing where there is
    /// none of this number.
    pub fn add_entry(&self, text: &mut Seq<u8>, number: usize) -> Result<(), Memory>
        ensures { OnOk result (text.new ≡ text.old ++ name_of_entry self.now number) }
    {
        let Some(entry) = self.entries.get(number) else {
            return Ok(());
        };
        text.append(self.signal_name(entry.signal))?;
        text.append(b" ")?;
        text.append(self.block_name(entry.block))
    }
}
