// A job as it runs.
ghost use Rattle.std.specs.Prelude.{◌≡◌, ◌+◌, ◌≤◌, ◌++◌, [], length, nat_lt, nat_eq, not, true};
ghost use Rattle.std.specs.Prelude.{◌&&◌, position, IfSome, IfNone, MatchOption, OnOk, OnErr, IfOk};
ghost use Rattle.std.specs.Prelude.{None, Some, slice_get, take, slice_index, if◌then◌else◌, Ok};
ghost use Rattle.std.specs.Prelude.{Err};
ghost use Rattle.std.specs.Option.{option_to_list};
ghost use Rattle.plex_limits.specs.declared.limits.TheConstants.{MOST_HELD, MOST_SENT, MOST_VALUES};
ghost use Rattle.job_types.specs.declared.chain.Held.{Held};
ghost use Rattle.job_types.specs.Own.{budget, eight as eight_of};
ghost use Rattle.source_meaning.specs.Value.{answer_of, expr_value, cond_value, values_of};
ghost use Rattle.source_meaning.specs.Value.{pointer_fault};
ghost use Rattle.source_interpreter.specs.Checks.{bit_of, unless};
ghost use Rattle.source_meaning.specs.Config.{base_of, next_counted};
ghost use Rattle.source_meaning.specs.Changes.{takes, variable_width as width_of_variable};
ghost use Rattle.job_types.specs.Chain.{without as chain_without};
ghost use Rattle.source_interpreter.specs.Reached.{reached};
ghost use Rattle.source_interpreter.specs.Running.{Running, sight_of, at_start, with_count};
ghost use Rattle.source_interpreter.specs.Running.{with_point, with_temp, with_temps, with_turns};
ghost use Rattle.source_interpreter.specs.Running.{before_rest, at_label, activated, waiting};
ghost use Rattle.source_interpreter.specs.Running.{resumed, posted, holding, left};
ghost use Rattle.source_interpreter.specs.Cases.{AreTablesOf};
ghost use Rattle.source_interpreter.specs.Kept.{AreExprsOfText, AreOfText, IsCondOfText};
ghost use Rattle.source_interpreter.specs.Kept.{IsExprOfText, IsNextKept};
ghost use Rattle.source_interpreter.specs.Taken.{before, is_counted};

use crate::cases::Cases;
use crate::frame::{Callers, Frame};
use crate::place::{Place, check_pointer};
use crate::text::{body, enter_place, first_cell, from, label_place, receiver_of, variable_width};
use crate::value::{cond_of, value_of};
use crate::view::View;
use crate::words::{put, value_at};
use crate::work::{Next, Work};
use exchange_model::{Cond, Exchange, Expr, Receiver, SignalKind, Stmt};
use job_types::{Chain, Fault, Held, JobDone, JobStart, Outcome, SendTo, Sent};
use plex_limits::{MOST_COUNTED, MOST_HELD, MOST_SENT, MOST_TEMPORARIES, MOST_VALUES};
use plex_num::{Memory, Seq, Values};
use std::alloc::Global;
use std::marker::Model;
use std::mem;

/// A job between two steps, with the memory that it uses again.
#[derive(Drop)]
pub struct Run<'a> {
    alloc: Global,
    exchange: &'a Exchange,
    cases: &'a Cases,
    block: u32,
    // the cell of the block's first variable
    first: u32,
    work: Work<'a>,
    temps: [u32; MOST_TEMPORARIES],
    callers: Callers<'a>,
    spare: Vec<Work<'a>>,
    given: [u32; MOST_VALUES],
    answers: [u32; MOST_VALUES],
    // the sends and the chain so far, and once the job is over how it ended
    done: Box<JobDone>,
    forlopp: u64,
    count: u32,
    point: u32,
}

impl<'a> Model for Run<'a> {
    ghost use Rattle.std.specs.Prelude.{◌≡◌};
    ghost use Rattle.source_interpreter.specs.Running.{Running};
    ghost use Rattle.source_interpreter.specs.Cases.{AreTablesOf};
    ghost use Rattle.source_meaning.specs.Config.{base_of};
    ghost use Rattle.std.specs.Coded.{codes};
    ghost use Rattle.exchange_model.specs.contracts.stmt.StmtKind as kind;

    ghost Value = { Running };

    ghost coded = { Prim.hlevel (codes, kind.the_row.coded) };

    ghost view = { λ r. record {
      exchange = r.exchange.now;
      block = r.block;
      todo = r.work;
      temps = r.temps;
      callers = r.callers;
      own = record {
        given = r.given;
        answers = r.answers;
        sends = r.done.value.sends;
        chain = r.done.value.chain;
        forlopp = r.forlopp;
        count = r.count;
        point = r.point;
      };
    } };

    ghost invariant = { λ r. (r.first ≡ base_of r.exchange.now r.block)
        × AreTablesOf r.cases.now r.exchange.now.blocks };
}

impl<'a> Run<'a> {
    /// A job at its start, whose sends and chain are to stand in `place`; past the last entry
    /// nothing remains to be done.
    pub fn begin(
        alloc: Global,
        exchange: &'a Exchange,
        cases: &'a Cases,
        start: &JobStart,
        place: Box<JobDone>,
    ) -> Result<Run<'a>, Memory>
        requires { AreTablesOf cases.now exchange.now.blocks }
        ensures { IfOk result (λ run. run ≡ at_start exchange.now start.now) }
    {
        let values = start.job.values.as_slice();
        let mut done = place;
        begin_anew(&mut done, &start.chain);
        let mut run = Run {
            alloc,
            exchange,
            cases,
            block: 0,
            first: first_cell(exchange, 0),
            work: Work::new(alloc),
            temps: [0; MOST_TEMPORARIES],
            callers: Callers::new(alloc),
            spare: Vec::new(alloc),
            given: eight(values),
            answers: [0; MOST_VALUES],
            done,
            forlopp: start.job.forlopp,
            count: 0,
            point: 0,
        };
        if let Some(entry) = exchange.entries.get(start.job.entry as usize) {
            run.activate(entry.block, entry.signal, values)?;
        }
        Ok(run)
    }

    /// What the job leaves, which ended so.
    pub fn into_done(self, outcome: Outcome) -> Box<JobDone>
        ensures sends { result.value.sends ≡ self.entry.own.sends }
        ensures chain { result.value.chain ≡ self.entry.own.chain }
        ensures outcome { result.value.outcome ≡ outcome }
    {
        let Run { mut done, .. } = self;
        done.outcome = outcome;
        done
    }

    /// The point of the statement that was counted last.
    pub fn point(&self) -> u32
        ensures { result ≡ self.now.own.point }
    {
        self.point
    }

    /// The value of an expression, or the fault that comes in its place.
    pub fn value(&self, e: &Expr, store: &Seq<u32>) -> Result<u32, Fault>
        requires { IsExprOfText e.now }
        ensures { result ≡ answer_of (expr_value e.now (sight_of self.now store.now)) }
    {
        value_of(e, &self.view(store))
    }

    /// Whether a condition holds, or the fault that comes in its place.
    pub fn holds(&self, cond: &Cond, store: &Seq<u32>) -> Result<bool, Fault>
        requires { IsCondOfText cond.now }
        ensures { bit_of result ≡ answer_of (cond_value cond.now (sight_of self.now store.now)) }
    {
        cond_of(cond, &self.view(store))
    }

    // What its expressions see.
    fn view<'b>(&'b self, store: &'b Seq<u32>) -> View<'b>
        ensures { result ≡ sight_of self.now store.now }
    {
        View {
            exchange: self.exchange,
            temps: &self.temps,
            store: store.as_slice(),
            chain: self.done.chain.as_slice(),
            first: self.first,
        }
    }

    /// The values of expressions, or the first fault.
    pub fn values(&self, exprs: &[Expr], store: &Seq<u32>) -> Result<Values, Fault>
        requires few { length exprs.now ≤ MOST_VALUES }
        requires exprs { AreExprsOfText exprs.now }
        ensures { result ≡ values_of exprs.now [] (sight_of self.now store.now) }
    {
        let mut values = Values::new();
        for e in exprs {
            values.push(self.value(e, store)?);
        }
        Ok(values)
    }

    /// The block to which a signal goes, or POINTER where a reference is held that names no
    /// receiver of it.
    pub fn receiver(
        &self,
        signal: u32,
        to: Option<Receiver>,
        store: &Seq<u32>,
    ) -> Result<u32, Fault>
        ensures { result ≡ reached self.now.exchange signal to (sight_of self.now store.now) }
    {
        match to {
            None => Ok(0),
            Some(Receiver::Block(block)) => Ok(block),
            Some(Receiver::Held(holder)) => {
                let reference = self.view(store).holder(holder);
                receiver_of(self.exchange, signal, reference).ok_or(Fault::Pointer)
            }
        }
    }

    /// The exchange.
    pub fn exchange(&self) -> &'a Exchange
        ensures { result.now ≡ self.now.exchange }
    {
        self.exchange
    }

    /// A signal by its number.
    pub fn signal(&self, signal: u32) -> Option<&'a SignalKind>
        ensures { MatchOption result
            (slice_get self.now.exchange.signals signal ≡ None)
            (λ k. slice_get self.now.exchange.signals signal ≡ Some k.now) }
    {
        let exchange = self.exchange;
        exchange.signals.get(signal as usize)
    }

    /// Whether it stands in a forlopp.
    pub fn has_forlopp(&self) -> bool
        ensures { result ≡ not (nat_eq self.now.own.forlopp 0) }
    {
        self.forlopp != 0
    }

    /// Looks for what is wrong with a pointer to a record.
    pub fn check_record(&self, file: u32, place: &Place, number: u32) -> Result<(), Fault>
        ensures { result ≡ unless (pointer_fault self.now.own.chain file place.now number) }
    {
        check_pointer(self.done.chain.as_slice(), file, place, number)
    }

    /// The cell of a variable of the block.
    pub fn variable_cell(&self, variable: u32) -> usize
        ensures { result ≡ base_of self.now.exchange self.now.block + variable }
    {
        self.first as usize + variable as usize
    }

    /// The width of a variable of the block.
    pub fn variable_width(&self, variable: u32) -> u8
        ensures { result ≡ width_of_variable self.now.exchange self.now.block variable }
    {
        variable_width(self.exchange, self.block, variable)
    }

    /// How many senders wait.
    pub fn callers(&self) -> usize
        ensures { result ≡ length self.now.callers }
    {
        self.callers.len()
    }

    /// The value of a temporary.
    pub fn temp(&self, temp: u8) -> u32
        ensures { result ≡ slice_index self.now.temps temp }
    {
        value_at(&self.temps, temp as usize)
    }

    /// Gives a temporary a value.
    pub fn set_temp(&mut self, temp: u8, value: u32)
        ensures { self.new ≡ with_temp temp value self.old }
    {
        put(&mut self.temps, temp as usize, value);
    }

    /// The temporaries get the entry values.
    pub fn take_given(&mut self, temps: &[u8])
        ensures { self.new ≡ with_temps temps.now self.old.own.given self.old }
    {
        take_values(&mut self.temps, temps, &self.given);
    }

    /// The temporaries get the values of the last answer.
    pub fn take_answers(&mut self, temps: &[u8])
        ensures { self.new ≡ with_temps temps.now self.old.own.answers self.old }
    {
        take_values(&mut self.temps, temps, &self.answers);
    }

    /// Counts a statement, at its point, unless so many were counted as a job may make.
    #[tactic(auto, unfolding(job_types::specs::Own::budget))]
    pub fn count(&mut self, point: u32) -> Result<(), Fault>
        ensures room { result ≡ (if nat_lt self.old.own.count budget
            then Ok tt else Err Fault.Budget) }
        ensures counted { OnOk result (self.new ≡ with_count point self.old) }
        ensures full { OnErr result (self.new ≡ with_point point self.old) }
    {
        self.point = point;
        if self.count as usize >= MOST_COUNTED {
            return Err(Fault::Budget);
        }
        self.count += 1;
        Ok(())
    }

    /// Takes the next item that counts, and drops those before it.
    pub fn take_next(&mut self) -> Result<Option<Next<'a>>, Memory>
        ensures item { IfOk result (λ next.
            next_counted self.old.todo ≡ before next self.new.todo) }
        ensures others { OnOk result (self.new ≡ record self.old { todo = self.new.todo }) }
        ensures counts { IfOk result (λ next. IfSome next (λ n. is_counted n ≡ true)) }
        ensures kept { IfOk result (λ next. IfSome next IsNextKept) }
    {
        self.work.take_next()
    }

    /// Puts statements before what remains.
    pub fn push_statements(
        &mut self,
        statements: &'a [Stmt],
        cases: &'a Cases,
    ) -> Result<(), Memory>
        requires { AreOfText cases.now statements.now }
        ensures { OnOk result (self.new ≡ before_rest statements.now self.old) }
    {
        self.work.push_statements(statements, cases)
    }

    /// Puts the turns of a loop before what remains.
    pub fn push_turns(
        &mut self,
        temp: u8,
        this: u64,
        last: u32,
        body: &'a [Stmt],
        cases: &'a Cases,
    ) -> Result<(), Memory>
        requires { AreOfText cases.now body.now }
        ensures { OnOk result (self.new ≡ with_turns temp this last body.now self.old) }
    {
        self.work
            .push_turns(self.point, temp, this, last, body, cases)
    }

    /// Goes on at a label.
    pub fn go_to(&mut self, label: u32) -> Result<(), Memory>
        ensures { OnOk result (self.new ≡ at_label label self.old) }
    {
        let place = label_place(self.exchange, self.block, label);
        self.work.clear();
        self.work
            .push_statements(from(body(self.exchange, self.block), place), self.cases)
    }

    /// Begins an activation in a block, with these entry values.
    pub fn activate(&mut self, block: u32, signal: u32, values: &[u32]) -> Result<(), Memory>
        requires { length values.now ≤ MOST_VALUES }
        ensures { OnOk result (self.new ≡ activated block signal values.now self.old) }
    {
        self.block = block;
        self.first = first_cell(self.exchange, block);
        self.temps = [0; MOST_TEMPORARIES];
        self.given = eight(values);
        let place = enter_place(self.exchange, block, signal);
        self.work
            .start(from(body(self.exchange, block), place), self.cases)
    }

    /// Begins an activation in a block, with the first so many of its own entry values.
    pub fn pass_on(&mut self, block: u32, signal: u32, count: u8) -> Result<(), Memory>
        ensures { OnOk result
            (self.new ≡ activated block signal (take count self.old.own.given) self.old) }
    {
        let given = self.given;
        self.activate(block, signal, front(&given, count))
    }

    /// Waits for an answer.
    pub fn wait(&mut self, answer: u32) -> Result<(), Memory>
        ensures { OnOk result (self.new ≡ waiting answer self.old) }
    {
        let fresh = self.fresh();
        let work = mem::replace(&mut self.work, fresh);
        self.callers.push(Frame {
            block: self.block,
            work,
            temps: self.temps,
            given: self.given,
            awaits: answer,
        })
    }

    // A place for what will remain.
    fn fresh(&mut self) -> Work<'a>
        ensures nothing { result ≡ [] }
        ensures same { self.new ≡ self.old }
    {
        match self.spare.pop() {
            Some(mut work) => {
                work.clear();
                work
            }
            None => Work::new(self.alloc),
        }
    }

    /// Takes out the last sender that waits.
    pub fn take_caller(&mut self) -> Option<Frame<'a>>
        ensures caller { self.old.callers ≡ option_to_list result ++ self.new.callers }
        ensures none { IfNone result (self.old.callers ≡ []) }
        ensures others { self.new ≡ record self.old { callers = self.new.callers } }
    {
        self.callers.pop()
    }

    /// Goes on at a sender that waited, with the values of its answer.
    pub fn resume(&mut self, frame: Frame<'a>, values: &[u32])
        requires { length values.now ≤ MOST_VALUES }
        ensures { self.new ≡ resumed frame.entry values.now self.old }
    {
        let Frame {
            block,
            work,
            temps,
            given,
            awaits: _,
        } = frame;
        self.block = block;
        self.first = first_cell(self.exchange, block);
        self.temps = temps;
        self.given = given;
        self.answers = eight(values);
        let used = mem::replace(&mut self.work, work);
        let _ = self.spare.push(used);
    }

    /// Puts a signal in the outbox, unless that is full.
    pub fn post(&mut self, to: SendTo, values: Values) -> Result<(), Fault>
        ensures room { result ≡ (if nat_lt (length self.old.own.sends) MOST_SENT
            then Ok tt else Err Fault.Sends) }
        ensures posted { OnOk result (self.new ≡ posted to values self.old) }
        ensures full { OnErr result (self.new ≡ self.old) }
    {
        if self.done.sends.as_slice().len() >= MOST_SENT {
            return Err(Fault::Sends);
        }
        self.done.sends.push(Sent { to, values });
        Ok(())
    }

    /// Puts a record in the chain, unless that is full.
    pub fn hold(&mut self, file: u32, number: u32) -> Result<(), Fault>
        ensures room { result ≡ (if nat_lt (length self.old.own.chain) MOST_HELD
            then Ok tt else Err Fault.Chain) }
        ensures held { OnOk result (self.new ≡ holding file number self.old) }
        ensures full { OnErr result (self.new ≡ self.old) }
    {
        if self.done.chain.as_slice().len() >= MOST_HELD {
            return Err(Fault::Chain);
        }
        self.done.chain.push(Held { file, number });
        Ok(())
    }

    /// Takes a record out of the chain.
    pub fn let_go(&mut self, file: u32, number: u32)
        ensures { self.new ≡ left file number self.old }
    {
        remove_record(&mut self.done.chain, file, number);
    }
}

// A job begins anew in the place of another one: nothing is sent, and it holds this chain.
fn begin_anew(done: &mut JobDone, chain: &Chain)
    ensures sends { done.new.sends ≡ [] }
    ensures chain { done.new.chain ≡ chain.now }
{
    done.sends.clear();
    done.chain.copy_from(chain);
}

// The place of a record in a chain.
fn place_of(chain: &Chain, file: u32, number: u32) -> Option<usize>
    ensures { result ≡ position
        (λ (h : Held). nat_eq h.file file && nat_eq h.number number) chain.now }
{
    chain
        .as_slice()
        .iter()
        .position(|held| held.file == file && held.number == number)
}

// Takes a record out of a chain, if it is there.
#[tactic(auto, using(job_types::proofs::Chained::without_found, job_types::proofs::Chained::without_none))]
fn remove_record(chain: &mut Chain, file: u32, number: u32)
    ensures { chain.new ≡ chain_without chain.old file number }
{
    let Some(i) = place_of(chain, file, number) else {
        return;
    };
    chain.remove(i);
}

// The temporaries get the values, which are 0 past the end.
fn take_values(temps: &mut [u32], names: &[u8], values: &[u32])
    ensures { temps.new ≡ takes 0 names.now values.now temps.old }
{
    for (place, name) in names.iter().enumerate() {
        put(temps, *name as usize, value_at(values, place));
    }
}

// The first so many of eight numbers.
fn front(numbers: &[u32; MOST_VALUES], count: u8) -> &[u32]
    ensures first { result.now ≡ take count numbers.now }
    ensures few { length result.now ≤ MOST_VALUES }
{
    if (count as usize) < MOST_VALUES {
        &numbers[..count as usize]
    } else {
        numbers
    }
}

// Eight values, 0 beyond these.
fn eight(values: &[u32]) -> [u32; MOST_VALUES]
    requires { length values.now ≤ MOST_VALUES }
    ensures { result ≡ eight_of values.now }
{
    let mut eight = [0; MOST_VALUES];
    for (place, value) in values.iter().enumerate() {
        eight[place] = *value;
    }
    eight
}
