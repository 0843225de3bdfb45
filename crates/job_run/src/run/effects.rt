// What an instruction may do to the job's own state.
ghost use Rattle.std.specs.Prelude.{◌≡◌, ℕ, ◌+◌, ◌-◌, ◌≤◌, ◌<◌, ◌^◌, ◌↔◌, ◌++◌, ◌∷◌, [], ◌&&◌};
ghost use Rattle.std.specs.Prelude.{true, not, nat_eq, length, take, replicate, slice_index};
ghost use Rattle.std.specs.Prelude.{slice_set, nat_lt, is_some, Some, None, unwrap_or, position};
ghost use Rattle.std.specs.Prelude.{IsNone, IsTrue};
ghost use Rattle.job_types.specs.Own.{budget, eight};
ghost use Rattle.job_types.specs.Chain.{holds, without};
ghost use Rattle.job_types.specs.Truth.{at_zero};
ghost use Rattle.machine_meaning.specs.Machine.{reg, goes, next, fails, checks, counts, divides};
ghost use Rattle.machine_meaning.specs.Machine.{joins, sends, calls, returns, ends};
ghost use Rattle.job_run.specs.Standing.{beyond, leads, standing, stood};
ghost use Rattle.job_run.specs.declared.run.stand.Way.TheVariants.{On, To, Over};
ghost use Rattle.job_types.specs.declared.chain.Held.{Held};
ghost use Rattle.machine_meaning.specs.Private.{counted_of};

use super::stand::{Spot, Way};
use super::{JobRun, eight_of};
use job_types::{Chain, Fault, Held, Outcome, SendTo, Sent};
use plex_limits::{MOST_CALLERS, MOST_HELD, MOST_SENT, MOST_VALUES};

// Each of these tells where the run goes on, or that the job has ended.
impl JobRun {
    /// The value of a register, numbered from 0 to 15.
    pub fn register(&self, r: u8) -> u32
        requires { r < 16 }
        ensures { result ≡ reg self.now r }
    {
        self.registers[r as usize]
    }

    /// A register gets a value.
    pub fn set(&mut self, r: u8, value: u32) -> Way
        requires register { r < 16 }
        ensures next { result ≡ On }
        ensures run { self.new ≡ record self.old { regs = slice_set self.old.regs r value } }
    {
        self.registers[r as usize] = value;
        Way::On
    }

    /// A local gets the value of a register.
    pub fn set_local(&mut self, i: u8, r: u8) -> Way
        requires local { i < 50 }
        requires register { r < 16 }
        ensures next { result ≡ On }
        ensures run { self.new ≡ record self.old
            { locals = slice_set self.old.locals i (reg self.old r) } }
    {
        self.locals[i as usize] = self.registers[r as usize];
        Way::On
    }

    /// The job ends by a fault. It stands alone, so that the loop of a run has the processor's
    /// registers for what goes on.
    #[cold]
    #[inline(never)]
    pub fn fail(&mut self, fault: Fault) -> Way
        ensures next { result ≡ Over }
        ensures run { self.new ≡ fails fault self.old }
    {
        self.done.outcome = Outcome::Faulted {
            fault,
            point: self.point,
        };
        self.over = true;
        Way::Over
    }

    /// Goes on where the test holds, and else ends by the fault.
    pub fn check(&mut self, holds: bool, fault: Fault, from: Spot) -> Way
        requires runs { self.old.over ≡ None }
        ensures run { stood (beyond from) (leads (beyond from).at self.new.pc result) self.new
            ≡ checks holds fault (standing (beyond from) self.old) }
        ensures over { (at address : ℕ) → is_some (leads at address result)
            ≡ not (is_some self.new.over) }
    {
        if holds { Way::On } else { self.fail(fault) }
    }

    /// A statement is counted.
    #[tactic(auto, using(crate::proofs::Counting::some_left, crate::proofs::Counting::all_left))]
    pub fn count(&mut self, point: u32, from: Spot) -> Way
        requires runs { self.old.over ≡ None }
        ensures run { stood (beyond from) (leads (beyond from).at self.new.pc result) self.new
            ≡ counts point (standing (beyond from) self.old) }
        ensures over { (at address : ℕ) → is_some (leads at address result)
            ≡ not (is_some self.new.over) }
    {
        let remaining = one_fewer(self.remaining);
        self.remaining = remaining;
        self.point = point;
        if remaining != 0 {
            Way::On
        } else {
            self.done.outcome = Outcome::Faulted {
                fault: Fault::Budget,
                point,
            };
            self.over = true;
            Way::Over
        }
    }

    /// The value of a local.
    pub fn local(&self, i: u8) -> u32
        requires { i < 50 }
        ensures { result ≡ slice_index self.now.locals i }
    {
        self.locals[i as usize]
    }

    /// An entry value.
    pub fn entry_value(&self, k: u8) -> u32
        requires { k < 8 }
        ensures { result ≡ slice_index self.now.own.given k }
    {
        self.given[k as usize]
    }

    /// A value of the last answer.
    pub fn answer_value(&self, k: u8) -> u32
        requires { k < 8 }
        ensures { result ≡ slice_index self.now.own.answers k }
    {
        self.answers[k as usize]
    }

    /// A register gets a value, unless the divisor is 0.
    pub fn divide(&mut self, r: u8, divisor: u32, quotient: Option<u32>, from: Spot) -> Way
        requires runs { self.old.over ≡ None }
        requires register { r < 16 }
        requires divisor { IsNone quotient ↔ (divisor ≡ 0) }
        ensures run { stood (beyond from) (leads (beyond from).at self.new.pc result) self.new
            ≡ divides r divisor (unwrap_or quotient 0) (standing (beyond from) self.old) }
        ensures over { (at address : ℕ) → is_some (leads at address result)
            ≡ not (is_some self.new.over) }
    {
        match quotient {
            Some(value) => self.set(r, value),
            None => self.fail(Fault::Divide),
        }
    }

    /// Goes to an address.
    pub fn jump(&mut self, a: u32) -> Way
        ensures next { result ≡ To }
        ensures run { self.new ≡ record self.old { pc = a } }
    {
        self.address = a as usize;
        Way::To
    }

    /// Goes to an address where a register is 0, and else on.
    pub fn go_if_zero(&mut self, r: u8, a: u32, from: Spot) -> Way
        requires register { r < 16 }
        ensures run { stood (beyond from) (leads (beyond from).at self.new.pc result) self.new
            ≡ at_zero (reg self.old r)
            (goes a (standing (beyond from) self.old)) (next (standing (beyond from) self.old)) }
        ensures over { self.new.over ≡ self.old.over }
        ensures next { (at address : ℕ) → is_some (leads at address result) ≡ true }
    {
        if self.register(r) == 0 {
            self.jump(a)
        } else {
            Way::On
        }
    }

    /// Whether the record of this file with this number is in the chain.
    pub fn holds(&self, file: u32, number: u32) -> bool
        ensures { result ≡ holds self.now.own.chain file number }
    {
        has_record(&self.done.chain, file, number)
    }

    /// Whether the job has a forlopp.
    pub fn has_forlopp(&self) -> bool
        ensures { result ≡ not (nat_eq self.now.own.forlopp 0) }
    {
        self.forlopp != 0
    }

    /// A record joins the chain.
    pub fn join(&mut self, file: u32, number: u32, from: Spot) -> Way
        requires runs { self.old.over ≡ None }
        ensures run { stood (beyond from) (leads (beyond from).at self.new.pc result) self.new
            ≡ joins file number (standing (beyond from) self.old) }
        ensures over { (at address : ℕ) → is_some (leads at address result)
            ≡ not (is_some self.new.over) }
    {
        if self.done.chain.as_slice().len() < MOST_HELD {
            self.done.chain.push(Held { file, number });
            Way::On
        } else {
            self.fail(Fault::Chain)
        }
    }

    /// A record leaves the chain.
    pub fn leave(&mut self, file: u32, number: u32) -> Way
        ensures next { result ≡ On }
        ensures run { self.new ≡ record self.old {
          own = record self.old.own {
            chain = without self.old.own.chain file number;
          };
        } }
    {
        remove_record(&mut self.done.chain, file, number);
        Way::On
    }

    /// A register joins the outgoing values; there must be room for it.
    pub fn join_outgoing(&mut self, r: u8) -> Way
        requires register { r < 16 }
        requires room { length self.old.out < MOST_VALUES }
        ensures next { result ≡ On }
        ensures run { self.new ≡ record self.old { out = self.old.out ++ reg self.old r ∷ [] } }
    {
        self.outgoing.push(self.registers[r as usize]);
        Way::On
    }

    /// Sends the outgoing values.
    pub fn send(&mut self, to: SendTo, from: Spot) -> Way
        requires runs { self.old.over ≡ None }
        ensures run { stood (beyond from) (leads (beyond from).at self.new.pc result) self.new
            ≡ sends to (standing (beyond from) self.old) }
        ensures over { (at address : ℕ) → is_some (leads at address result)
            ≡ not (is_some self.new.over) }
    {
        if self.done.sends.as_slice().len() < MOST_SENT {
            let values = self.outgoing.values();
            self.outgoing.clear();
            self.done.sends.push(Sent { to, values });
            Way::On
        } else {
            self.fail(Fault::Sends)
        }
    }

    /// A new activation at an address, with these entry values.
    fn activate(&mut self, a: u32, values: [u32; 8]) -> Way
        ensures next { result ≡ To }
        ensures run { self.new ≡ record self.old {
          pc = a;
          regs = replicate 16 0;
          locals = replicate 50 0;
          own = record self.old.own { given = values };
        } }
    {
        self.locals = [0; 50];
        self.begin_at(a, values)
    }

    /// A new activation at an address, with these entry values; the locals are as they were.
    fn begin_at(&mut self, a: u32, values: [u32; 8]) -> Way
        ensures next { result ≡ To }
        ensures run { self.new ≡ record self.old {
          pc = a;
          regs = replicate 16 0;
          own = record self.old.own { given = values };
        } }
    {
        self.registers = [0; 16];
        self.given = values;
        self.jump(a)
    }

    /// The outgoing values, and 0 beyond them, and then none are outgoing.
    fn take_outgoing(&mut self) -> [u32; 8]
        ensures values { result ≡ eight self.old.out }
        ensures run { self.new ≡ record self.old { out = [] } }
    {
        let values = self.outgoing.all_eight();
        self.outgoing.clear();
        values
    }

    /// A new activation, whose entry values are the outgoing ones.
    pub fn enter(&mut self, a: u32) -> Way
        ensures next { result ≡ To }
        ensures run { self.new ≡ record self.old {
          pc = a;
          regs = replicate 16 0;
          locals = replicate 50 0;
          out = [];
          own = record self.old.own { given = eight self.old.out };
        } }
    {
        let values = self.take_outgoing();
        self.activate(a, values)
    }

    /// The same, and the activation that is left waits for an answer.
    #[inline(always)]
    pub fn call(&mut self, a: u32, answer: u32, from: Spot) -> Way
        requires runs { self.old.over ≡ None }
        requires spot { (from.left ≤ from.all) × (from.all < 2 ^ 63) }
        ensures run { stood (beyond from) (leads (beyond from).at self.new.pc result) self.new
            ≡ calls a answer (standing (beyond from) self.old) }
        ensures over { (at address : ℕ) → is_some (leads at address result)
            ≡ not (is_some self.new.over) }
    {
        if self.frames.len() < MOST_CALLERS {
            self.frames
                .push(from.at() + 1, &mut self.locals, &self.given, answer);
            let values = self.take_outgoing();
            self.begin_at(a, values)
        } else {
            self.fail(Fault::Depth)
        }
    }

    /// Answers the caller that waits.
    #[tactic(auto, using(crate::proofs::Returning::some_waits, crate::proofs::Returning::returns_first, crate::proofs::Returning::returns_none))]
    #[inline(always)]
    pub fn give_back(&mut self, answer: u32, from: Spot) -> Way
        requires runs { self.old.over ≡ None }
        ensures run { stood (beyond from) (leads (beyond from).at self.new.pc result) self.new
            ≡ returns self.old.frames answer (standing (beyond from) self.old) }
        ensures over { (at address : ℕ) → is_some (leads at address result)
            ≡ not (is_some self.new.over) }
    {
        if self.frames.awaits(answer) {
            self.answers = self.outgoing.all_eight();
            self.outgoing.clear();
            self.registers = [0; 16];
            let frame = self.frames.latest();
            frame.locals.give_back(&mut self.locals);
            self.given = frame.given;
            self.address = frame.back;
            self.frames.leave();
            Way::To
        } else {
            self.fail(Fault::BadEnd)
        }
    }

    /// A new activation, whose entry values are the first n of those of this one.
    pub fn transfer(&mut self, a: u32, n: u32) -> Way
        ensures next { result ≡ To }
        ensures run { self.new ≡ record self.old {
          pc = a;
          regs = replicate 16 0;
          locals = replicate 50 0;
          own = record self.old.own { given = eight (take n self.old.own.given) };
        } }
    {
        let kept = (n as usize).min(8);
        let values = eight_of(&self.given[..kept]);
        self.activate(a, values)
    }

    /// The job ends, unless a caller waits.
    pub fn end(&mut self, from: Spot) -> Way
        requires runs { self.old.over ≡ None }
        ensures run { stood (beyond from) (leads (beyond from).at self.new.pc result) self.new
            ≡ ends self.old.frames (standing (beyond from) self.old) }
        ensures over { (at address : ℕ) → is_some (leads at address result)
            ≡ not (is_some self.new.over) }
    {
        if self.frames.len() == 0 {
            self.done.outcome = Outcome::Ended;
            self.over = true;
            Way::Over
        } else {
            self.fail(Fault::BadEnd)
        }
    }
}

/// Whether a chain has a record.
fn has_record(chain: &Chain, file: u32, number: u32) -> bool
    ensures { result ≡ holds chain.now file number }
{
    chain
        .as_slice()
        .iter()
        .any(|held| held.file == file && held.number == number)
}

/// The place of a record in a chain.
fn place_of(chain: &Chain, file: u32, number: u32) -> Option<usize>
    ensures { result ≡ position (λ (h : Held). nat_eq h.file file && nat_eq h.number number)
        chain.now }
{
    chain
        .as_slice()
        .iter()
        .position(|held| held.file == file && held.number == number)
}

/// Takes a record out of a chain, if it is there.
#[tactic(auto, using(job_types::proofs::Chained::without_found, job_types::proofs::Chained::without_none))]
fn remove_record(chain: &mut Chain, file: u32, number: u32)
    ensures { chain.new ≡ without chain.old file number }
{
    let Some(i) = place_of(chain, file, number) else {
        return;
    };
    chain.remove(i);
}

/// One statement fewer may be begun; the last one faults.
#[tactic(auto, using(crate::proofs::Counting::one_more, crate::proofs::Counting::may_count))]
fn one_fewer(remaining: u32) -> u32
    requires some { 0 < remaining }
    requires all { remaining ≤ budget + 1 }
    ensures count { counted_of result ≡ counted_of remaining + 1 }
    ensures within { nat_lt (counted_of remaining) budget ≡ not (nat_eq result 0) }
{
    remaining - 1
}
