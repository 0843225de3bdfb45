// Statements that choose what comes next.
ghost use Rattle.std.specs.Prelude.{◌≡◌, ◌≤◌, length, slice_get, MatchOption, Some};
ghost use Rattle.exchange_model.specs.declared.stmt.StmtKind.{out-StmtKind};
ghost use Rattle.exchange_model.specs.declared.stmt.StmtKind.TheOpen as stmt;
ghost use Rattle.source_meaning.specs.Step.{starts};
ghost use Rattle.source_meaning.specs.Changes.{ends, chosen as statements_chosen};
ghost use Rattle.case_lookup.specs.Tables.{IsTable};
ghost use Rattle.source_interpreter.specs.Cases.{FindsOwn, numbers_of};
ghost use Rattle.source_interpreter.specs.Leaves.{Does, Leads, turn};
ghost use Rattle.source_interpreter.specs.Kept.{AreOfText, AreWhensOfText, IsCondOfText};
ghost use Rattle.source_interpreter.specs.Kept.{IsExprOfText};

use crate::cases::Cases;
use crate::run::Run;
use crate::stop::Stop;
use case_lookup::first_place;
use exchange_model::{Cond, Expr, Stmt, StmtKind, When};
use job_types::Fault;
use plex_num::Seq;

impl<'a> Run<'a> {
    /// GOTO.
    #[tactic(auto, using(crate::proofs::Turning::goto_goes, crate::proofs::Follow::as_memory))]
    pub fn jump(&mut self, store: &Seq<u32>, label: u32) -> Result<(), Stop>
        ensures { Does (stmt.Goto label) self.old store.now result self.new store.now }
    {
        self.go_to(label)?;
        Ok(())
    }

    /// GOTO where a condition holds.
    #[tactic(auto, using(crate::proofs::Turning::if_gotos))]
    pub fn jump_if(&mut self, store: &Seq<u32>, cond: &Cond, label: u32) -> Result<(), Stop>
        requires { IsCondOfText cond.now }
        ensures { Does (stmt.IfGoto cond.now label) self.old store.now result self.new store.now }
    {
        if self.holds(cond, store)? {
            self.go_to(label)?;
            Ok(())
        } else {
            Ok(())
        }
    }

    /// One of two branches, by whether a condition holds.
    #[tactic(auto, using(crate::proofs::Turning::ifs))]
    pub fn choose(
        &mut self,
        store: &Seq<u32>,
        cond: &Cond,
        first: &'a [Stmt],
        other: &'a [Stmt],
        cases: &'a Cases,
    ) -> Result<(), Stop>
        requires cond { IsCondOfText cond.now }
        requires first { AreOfText cases.now first.now }
        requires other { AreOfText cases.now other.now }
        ensures { Does (stmt.If cond.now first.now other.now)
            self.old store.now result self.new store.now }
    {
        if self.holds(cond, store)? {
            self.push_statements(first, cases)?;
            Ok(())
        } else {
            self.push_statements(other, cases)?;
            Ok(())
        }
    }

    /// The choice of a CASE at a point that has the number of a value.
    #[tactic(auto, using(crate::proofs::Turning::case_goes, crate::proofs::Turning::case_stops, crate::proofs::Follow::as_memory, crate::proofs::Choosing::of_chosen))]
    pub fn choose_case(
        &mut self,
        store: &Seq<u32>,
        value: &Expr,
        whens: &'a [When],
        otherwise: &'a [Stmt],
        point: u32,
        cases: &'a Cases,
    ) -> Result<(), Stop>
        requires value { IsExprOfText value.now }
        requires whens { AreWhensOfText cases.now whens.now }
        requires otherwise { AreOfText cases.now otherwise.now }
        requires table { FindsOwn cases.now point whens.now }
        ensures { Does (stmt.Case value.now whens.now otherwise.now)
            self.old store.now result self.new store.now }
    {
        let number = self.value(value, store)?;
        let statements = chosen(cases, point, whens, number, otherwise);
        self.push_statements(statements, cases)?;
        Ok(())
    }

    /// The turns of a loop remain to be done, from the first number to the last.
    #[tactic(auto, using(crate::proofs::Turning::loops))]
    pub fn begin_turns(
        &mut self,
        store: &Seq<u32>,
        temp: u8,
        from: &Expr,
        upto: &Expr,
        body: &'a [Stmt],
        cases: &'a Cases,
    ) -> Result<(), Stop>
        requires from { IsExprOfText from.now }
        requires upto { IsExprOfText upto.now }
        requires body { AreOfText cases.now body.now }
        ensures { Does (stmt.On temp from.now upto.now body.now)
            self.old store.now result self.new store.now }
    {
        let first = self.value(from, store)?;
        let last = self.value(upto, store)?;
        self.push_turns(temp, u64::from(first), last, body, cases)?;
        Ok(())
    }

    /// One turn of a loop: the temporary gets the number, the statements are done, and the turns
    /// after it remain.
    #[tactic(auto, using(crate::proofs::Turning::turn_goes, crate::proofs::Follow::as_memory))]
    pub fn take_turn(
        &mut self,
        temp: u8,
        this: u64,
        last: u32,
        body: &'a [Stmt],
        cases: &'a Cases,
    ) -> Result<(), Stop>
        requires within { this ≤ last }
        requires body { AreOfText cases.now body.now }
        ensures { Leads (turn self.old.own.point temp this last body.now self.old.todo)
            self.old result self.new }
    {
        self.set_temp(temp, this as u32);
        self.push_turns(temp, this + 1, last, body, cases)?;
        self.push_statements(body, cases)?;
        Ok(())
    }

    /// The ENTER of the signal that began the activation: the temporaries get its values.
    #[tactic(auto, using(crate::proofs::Turning::starts_enter, crate::proofs::Turning::starts_other))]
    pub fn enter(&mut self, kind: &StmtKind) -> Result<(), Stop>
        ensures { Leads (starts (out-StmtKind kind.now) self.old.todo) self.old result self.new }
    {
        match kind {
            StmtKind::Enter { temps, .. } => {
                self.take_given(temps.as_slice());
                Ok(())
            }
            _ => Ok(()),
        }
    }

    /// The job ends, unless a caller waits.
    #[tactic(auto, using(crate::proofs::Turning::ends_alone, crate::proofs::Turning::ends_wrong))]
    pub fn end(&self) -> Result<(), Stop>
        ensures { Leads (ends self.now.callers) self.now result self.now }
    {
        if self.callers() == 0 {
            Err(Stop::Ended)
        } else {
            Err(Stop::Fault(Fault::BadEnd))
        }
    }
}

// The choice of the number, or else the other one: by the table of the CASE, where it has one.
#[tactic(auto, using(crate::proofs::Choosing::table_own))]
fn chosen<'a>(
    cases: &Cases,
    point: u32,
    whens: &'a [When],
    number: u32,
    otherwise: &'a [Stmt],
) -> &'a [Stmt]
    requires { FindsOwn cases.now point whens.now }
    ensures { result.now ≡ statements_chosen whens.now number otherwise.now }
{
    match cases.table(point) {
        Some(keys) => chosen_by(keys, whens, number, otherwise),
        None => chosen_among(whens, number, otherwise),
    }
}

// The same by a table.
fn chosen_by<'a>(keys: &[u64], whens: &'a [When], number: u32, otherwise: &'a [Stmt]) -> &'a [Stmt]
    requires { IsTable (numbers_of whens.now) keys.now }
    ensures { result.now ≡ statements_chosen whens.now number otherwise.now }
{
    match when_at(whens, first_place(keys, number)) {
        Some(when) => when.body.as_slice(),
        None => otherwise,
    }
}

// The choice at a place.
fn when_at(whens: &[When], place: usize) -> Option<&When>
    ensures { MatchOption result
        (length whens.now ≤ place)
        (λ w. slice_get whens.now place ≡ Some w.now) }
{
    whens.get(place)
}

// The same, choice by choice.
fn chosen_among<'a>(whens: &'a [When], number: u32, otherwise: &'a [Stmt]) -> &'a [Stmt]
    ensures { result.now ≡ statements_chosen whens.now number otherwise.now }
{
    for when in whens {
        if when.number == number {
            return when.body.as_slice();
        }
    }
    otherwise
}
