// Numbers that mostly are small.
ghost use Rattle.std.specs.Prelude.{◌≡◌, ◌<◌, ◌^◌, [], length, replicate, slice_index_or};
ghost use Rattle.std.specs.Prelude.{slice_set, IfOk, IsTrue, OnErr, OnOk};
ghost use Rattle.fact_rows.specs.Narrow.{told};

use plex_num::Memory;
use std::alloc::Global;
use std::marker::Model;

/// The largest number that two bytes can tell.
const MOST_NARROW: u32 = 65_535;

/// A row of numbers of 32 bits, in two bytes each as long as none is above 65,535; from then on all
/// stand in four bytes each. Contracts see it as the list of its numbers.
#[derive(Drop)]
pub(crate) struct NumberRow {
    narrow: Vec<u16>,
    wide: Vec<u32>,
}

impl Model for NumberRow {
    ghost use Rattle.std.specs.Prelude.{ℕ, List};
    ghost use Rattle.fact_rows.specs.Narrow.{told};

    ghost Value = { List ℕ };

    ghost view = { λ r. told r.narrow.items r.wide.items };
}

impl NumberRow {
    /// So many zeros.
    pub(crate) fn zeros(alloc: Global, count: usize) -> Result<NumberRow, Memory>
        ensures { IfOk result (λ row. row ≡ replicate count 0) }
    {
        let narrow = no_numbers(alloc, count)?;
        Ok(NumberRow {
            narrow,
            wide: Vec::new(alloc),
        })
    }

    /// How many numbers there are.
    #[tactic(auto, using(crate::proofs::Narrowing::told_narrow, crate::proofs::Narrowing::told_wide))]
    pub(crate) fn len(&self) -> usize
        ensures { result ≡ length self.now }
    {
        if self.wide.is_empty() {
            self.narrow.len()
        } else {
            self.wide.len()
        }
    }

    /// The number at a place, counted from 0.
    #[tactic(auto, using(crate::proofs::Narrowing::narrow_place, crate::proofs::Narrowing::narrow_read, crate::proofs::Narrowing::wide_read))]
    pub(crate) fn number(&self, i: usize) -> u32
        requires { i < length self.now }
        ensures { result ≡ slice_index_or self.now i 0 }
    {
        if i < self.wide.len() {
            return self.wide[i];
        }
        self.narrow[i] as u32
    }

    /// Puts a number in the place of that at `i`, counted from 0. Where memory is refused, all stay
    /// as they were.
    #[tactic(auto, using(crate::proofs::Narrowing::told_narrow, crate::proofs::Narrowing::narrow_put, crate::proofs::Narrowing::wide_put))]
    pub(crate) fn put(&mut self, i: usize, number: u32) -> Result<(), Memory>
        requires { i < length self.old }
        ensures ok { OnOk result (self.new ≡ slice_set self.old i number) }
        ensures err { OnErr result (self.new ≡ self.old) }
    {
        if stays_narrow(&self.wide, number) {
            self.narrow[i] = number as u16;
            return Ok(());
        }
        widen(&self.narrow, &mut self.wide)?;
        self.wide[i] = number;
        Ok(())
    }

    /// Leaves zeros alone.
    #[tactic(auto, using(crate::proofs::Narrowing::told_zeros))]
    pub(crate) fn clear(&mut self)
        ensures { self.new ≡ replicate (length self.old) 0 }
    {
        clear_narrow(&mut self.narrow);
        clear_wide(&mut self.wide);
    }
}

/// So many zeros of two bytes.
fn no_numbers(alloc: Global, count: usize) -> Result<Vec<u16>, Memory>
    ensures { IfOk result (λ list. list.items ≡ replicate count 0) }
{
    match Vec::from_elem(alloc, 0, count) {
        Ok(list) => Ok(list),
        Err(_) => Err(Memory),
    }
}

/// Whether a number may be put beside numbers of two bytes.
fn stays_narrow(wide: &[u32], number: u32) -> bool
    ensures narrow { IsTrue result → wide.now ≡ [] }
    ensures small { IsTrue result → number < 2 ^ 16 }
{
    wide.is_empty() && number <= MOST_NARROW
}

/// Tells all numbers in four bytes each, if that was not done. Where memory is refused, nothing is
/// told anew.
#[tactic(auto, using(crate::proofs::Narrowing::told_wide))]
fn widen(narrow: &[u16], wide: &mut Vec<u32>) -> Result<(), Memory>
    ensures ok { OnOk result (wide.new.items ≡ told narrow.now wide.old.items) }
    ensures err { OnErr result (wide.new.items ≡ wide.old.items) }
{
    if !wide.is_empty() {
        return Ok(());
    }
    for number in narrow {
        if wide.push(*number as u32).is_err() {
            wide.clear();
            return Err(Memory);
        }
    }
    Ok(())
}

/// Leaves zeros of two bytes.
fn clear_narrow(list: &mut [u16])
    ensures { list.new ≡ replicate (length list.old) 0 }
{
    list.fill(0);
}

/// Leaves zeros of four bytes.
fn clear_wide(list: &mut [u32])
    ensures { list.new ≡ replicate (length list.old) 0 }
{
    list.fill(0);
}
