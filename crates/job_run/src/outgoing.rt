// The values that go out with the next signal.
ghost use Rattle.std.specs.Prelude.{◌≡◌, ◌<◌, ◌≤◌, ◌++◌, ◌∷◌, [], length};
ghost use Rattle.job_types.specs.Own.{eight};

use plex_limits::MOST_VALUES;
use plex_num::Values;
use std::marker::Model;

/// The values that go out with the next signal: at most eight, which contracts see as a list. Zeros
/// stand behind them, so that the values of a call or of an answer are all eight, and no function
/// that copies any number of them is called.
#[derive(Drop)]
pub(crate) struct Outgoing {
    numbers: [u32; 8],
    count: usize,
}

impl Model for Outgoing {
    ghost use Rattle.std.specs.Prelude.{List, ℕ, ◌≡◌, ◌≤◌, ◌-◌, take, drop, replicate};

    ghost Value = { List ℕ };

    ghost view = { λ o. take o.count o.numbers };

    ghost invariant = { λ o. (o.count ≤ 8)
        × (drop o.count o.numbers ≡ replicate (8 - o.count) 0) };
}

impl Outgoing {
    /// No values.
    pub(crate) fn new() -> Outgoing
        ensures { result ≡ [] }
    {
        Outgoing {
            numbers: [0; 8],
            count: 0,
        }
    }

    /// No value goes out any more.
    pub(crate) fn clear(&mut self)
        ensures { self.new ≡ [] }
    {
        self.numbers = [0; 8];
        self.count = 0;
    }

    /// One more value goes out; there must be room for it.
    #[tactic(auto, using(crate::proofs::Giving::one_joins))]
    pub(crate) fn push(&mut self, number: u32)
        requires { length self.old < MOST_VALUES }
        ensures { self.new ≡ self.old ++ number ∷ [] }
    {
        self.numbers[self.count] = number;
        self.count += 1;
    }

    /// The values, and 0 beyond them, eight in all.
    pub(crate) fn all_eight(&self) -> [u32; 8]
        ensures { result ≡ eight self.now }
    {
        let numbers: &[u32] = &self.numbers;
        let _ = numbers;
        self.numbers
    }

    /// The values, as a signal has them.
    pub(crate) fn values(&self) -> Values
        ensures { result ≡ self.now }
    {
        let mut values = Values::new();
        for number in self.as_slice() {
            values.push(*number);
        }
        values
    }

    /// The values alone.
    #[tactic(auto, using(crate::proofs::Giving::few))]
    fn as_slice(&self) -> &[u32]
        ensures items { result.now ≡ self.now }
        ensures room { length self.now ≤ MOST_VALUES }
    {
        &self.numbers[..self.count]
    }
}
