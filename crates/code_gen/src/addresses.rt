// The addresses of the places of all texts.
ghost use Rattle.std.specs.Prelude.{◌≡◌, ◌+◌, ◌-◌, min, length, slice_index, IfOk};
ghost use Rattle.code_gen.specs.Addresses.{address_in};

use plex_num::{Memory, Seq};

/// For each block the addresses of the places of its text, which are one more than its statements,
/// and the end of all blocks.
#[derive(Drop)]
pub struct Addresses {
    pub blocks: Seq<Seq<u32>>,
    pub end: u32,
}

impl Addresses {
    /// The address of a place of a block's text; past the text, its end, and past the last block,
    /// the end of all.
    #[tactic(auto, using(crate::proofs::Lookups::address_none, crate::proofs::Lookups::address_some))]
    pub fn at(&self, block: u32, place: u32) -> u32
        ensures { result ≡ address_in self.now block place }
    {
        match self.blocks.get(block as usize) {
            Some(places) => nearest(places.as_slice(), place as usize),
            None => self.end,
        }
    }
}

/// The item at a place, or the last one; 0 of none.
fn nearest(places: &[u32], place: usize) -> u32
    ensures { result ≡ slice_index places.now (min place (length places.now - 1)) }
{
    if place < places.len() {
        places[place]
    } else {
        places.last().copied().unwrap_or(0)
    }
}

/// The address so many instructions and some more behind an address, which must be a number of 32
/// bits.
pub fn address_after(start: u32, len: usize, more: u32) -> Result<u32, Memory>
    ensures { IfOk result (λ a. a ≡ start + len + more) }
{
    let Ok(len) = u32::try_from(len) else {
        return Err(Memory);
    };
    let Some(there) = start.checked_add(len) else {
        return Err(Memory);
    };
    there.checked_add(more).ok_or(Memory)
}

/// The address some instructions behind an address, which must be a number of 32 bits.
pub fn address_plus(start: u32, more: u32) -> Result<u32, Memory>
    ensures { IfOk result (λ a. a ≡ start + more) }
{
    start.checked_add(more).ok_or(Memory)
}

/// The address behind what a list has more than so many instructions, which must be a number of 32
/// bits.
pub fn address_between(start: u32, before: usize, now: usize) -> Result<u32, Memory>
    ensures { IfOk result (λ a. a + before ≡ start + now) }
{
    match now.checked_sub(before) {
        Some(len) => address_after(start, len, 0),
        None => Err(Memory),
    }
}
