// New numbers of lines, looked up by their old ones.
ghost use Rattle.std.specs.Prelude.{◌≡◌, ◌<◌, ◌^◌, ℕ, IfOk, OnOk, None, length};
ghost use Rattle.job_table.specs.Places.{ArePlaces, HasNoted, noted};

use plex_num::Memory;
use signal_file::Line;
use std::alloc::Global;
use std::collections::HashMap;

/// The new number of each line, by its old number.
pub struct Places {
    pub(crate) numbers: HashMap<u32, u32>,
}

impl Drop for Places {
    fn drop(self) {
        let Places { numbers: _ } = self;
    }
}

impl Places {
    fn new(alloc: Global) -> Places
        ensures { (n : ℕ) → noted result n ≡ None }
    {
        Places {
            numbers: HashMap::new(alloc),
        }
    }

    /// The new number of the line that had this one.
    pub fn number(&self, old: u32) -> Option<u32>
        ensures { result ≡ noted self.now old }
    {
        self.numbers.get(&old).copied()
    }

    /// Notes a number of an old one, unless one is noted.
    #[tactic(auto, using(crate::proofs::Noting::noted_stays))]
    fn note(&mut self, old: u32, number: u32) -> Result<(), Memory>
        ensures { OnOk result (HasNoted self.old self.new old number) }
    {
        if self.number(old).is_some() {
            return Ok(());
        }
        match self.numbers.insert(old, number) {
            Ok(_) => Ok(()),
            Err(_) => Err(Memory),
        }
    }
}

/// Where these lines stand, from 1. Of lines with one old number the first counts.
#[tactic(auto, using(crate::proofs::Noting::lines_noted))]
pub fn places_of(alloc: Global, lines: &[Line]) -> Result<Places, Memory>
    requires { length lines.now < 2 ^ 32 }
    ensures { IfOk result (λ places. ArePlaces places lines.now) }
{
    let mut places = Places::new(alloc);
    for (place, line) in lines.iter().enumerate() {
        places.note(line.number, place as u32 + 1)?;
    }
    Ok(places)
}
