// The lines of a signal file, and the forlopps that those got which have arrived.
ghost use Rattle.std.specs.Prelude.{◌≡◌, ℕ, ◌<◌, ◌≤◌, [], length, map, nat_eq, slice_get, OnOk};
ghost use Rattle.std.specs.Prelude.{OnErr, Some};
ghost use Rattle.std.specs.Option.{option_copied, option_map};
ghost use Rattle.std.specs.HashMap.{get};
ghost use Rattle.source_meaning.specs.Arrivals.{given_to};
ghost use Rattle.run_books.specs.Lines.{AreFound, NextArrives, Notes, coming_of, timetable};

use plex_num::{Memory, Seq};
use signal_file::Line;
use std::alloc::Global;
use std::collections::HashMap;
use std::marker::Model;

/// The lines in order; the forlopps of those that have arrived, which are the first ones; and the
/// same by their numbers.
pub struct Schedule {
    lines: Seq<Line>,
    given: Vec<u64>,
    numbers: HashMap<u32, u64>,
}

impl Drop for Schedule {
    fn drop(self) {
        let Schedule {
            lines: _,
            given: _,
            numbers: _,
        } = self;
    }
}

impl Model for Schedule {
    ghost use Rattle.std.specs.Prelude.{◌≤◌, length, nat_eq};
    ghost use Rattle.std.specs.HashMap.{get};
    ghost use Rattle.run_books.specs.Lines.{AreFound, Timetable, timetable};

    ghost Value = { Timetable };

    ghost view = { λ s. timetable s.lines s.given.items };

    ghost invariant = { λ s. (length s.given.items ≤ length s.lines)
        × AreFound (get nat_eq s.numbers) s.lines s.given.items };
}

impl Schedule {
    /// No line has arrived; it takes no memory.
    pub fn new(alloc: Global, lines: Seq<Line>) -> Schedule
        ensures lines { result.lines ≡ map coming_of lines }
        ensures arrived { result.arrived ≡ [] }
    {
        Schedule {
            lines,
            given: Vec::new(alloc),
            numbers: HashMap::new(alloc),
        }
    }

    /// The schedule of these lines, the first of which have arrived and got these forlopps, which
    /// are also found by the numbers of the lines.
    pub fn from_parts(lines: Seq<Line>, given: Seq<u64>, numbers: HashMap<u32, u64>) -> Schedule
        requires within { length given ≤ length lines }
        requires numbers { AreFound (get nat_eq numbers) lines given }
        ensures { result ≡ timetable lines given }
    {
        Schedule {
            lines,
            given: given.into_vec(),
            numbers,
        }
    }

    /// The lines, the forlopps of those that have arrived, and these by the numbers of the lines.
    pub fn into_parts(self) -> (Seq<Line>, Seq<u64>, HashMap<u32, u64>)
        ensures timetable { timetable result.0 result.1 ≡ self }
        ensures within { length result.1 ≤ length result.0 }
        ensures numbers { AreFound (get nat_eq result.2) result.0 result.1 }
    {
        let Schedule {
            lines,
            given,
            numbers,
        } = self;
        (lines, Seq::from_vec(given), numbers)
    }

    /// The next line; `None` exactly where none is left.
    pub fn next(&self) -> Option<&Line>
        ensures { option_map coming_of (option_copied result) ≡ slice_get self.now.lines 0 }
    {
        self.lines.as_slice().get(self.given.len())
    }

    /// The forlopp that a line got; 0 where no line of this number has arrived.
    pub fn given_to(&self, line: u32) -> u64
        ensures { result ≡ given_to self.now.arrived line }
    {
        match self.numbers.get(&line) {
            Some(forlopp) => *forlopp,
            None => 0,
        }
    }

    /// The next line has arrived, which must be there, and got this forlopp. Where memory is
    /// refused, nothing changes.
    pub fn arrive(&mut self, forlopp: u64) -> Result<(), Memory>
        requires { 0 < length self.old.lines }
        ensures { NextArrives self.old self.new forlopp result }
    {
        let number = line_at(&self.lines, self.given.len()).number;
        if self.given.reserve(1).is_err() {
            return Err(Memory);
        }
        note(&mut self.numbers, number, forlopp)?;
        self.given.push_reserved(forlopp);
        Ok(())
    }
}

/// The line at a place.
fn line_at(lines: &Seq<Line>, place: usize) -> &Line
    requires { place < length lines.now }
    ensures { slice_get lines.now place ≡ Some result.now }
{
    &lines.as_slice()[place]
}

/// Notes the forlopp of a line, unless one of its number is noted. Where memory is refused, nothing
/// changes.
fn note(numbers: &mut HashMap<u32, u64>, line: u32, forlopp: u64) -> Result<(), Memory>
    ensures ok { OnOk result
        (Notes (get nat_eq numbers.old) (get nat_eq numbers.new) line forlopp) }
    ensures err { OnErr result ((n : ℕ) → get nat_eq numbers.new n ≡ get nat_eq numbers.old n) }
{
    if numbers.contains_key(&line) {
        return Ok(());
    }
    match numbers.insert(line, forlopp) {
        Ok(_) => Ok(()),
        Err(_) => Err(Memory),
    }
}
