// One step of a job.
ghost use Rattle.std.specs.Prelude.{◌≡◌};
ghost use Rattle.exchange_model.specs.declared.stmt.StmtKind.{out-StmtKind};
ghost use Rattle.source_interpreter.specs.Leaves.{Does, Steps};
ghost use Rattle.source_interpreter.specs.Kept.{IsOfText};

use crate::cases::Cases;
use crate::run::Run;
use crate::stop::Stop;
use crate::work::Next;
use exchange_model::{Stmt, StmtKind};
use plex_num::Seq;

impl<'a> Run<'a> {
    /// One step: the next statement, or the next turn of a loop, is counted and done. Where nothing
    /// remains, the job ends.
    #[tactic(auto, using(crate::proofs::Stepping::stepped))]
    pub fn step(&mut self, store: &mut Seq<u32>) -> Result<(), Stop>
        ensures { Steps self.old store.old result self.new store.new }
    {
        match self.take_next()? {
            None => self.end(),
            Some(Next::Do { statement, cases }) => {
                self.count(statement.point)?;
                self.perform(store, statement, cases)
            }
            Some(Next::Start(statement)) => {
                self.count(statement.point)?;
                self.enter(&statement.kind)
            }
            Some(
                Next::Turn {
                    point,
                    temp,
                    this,
                    last,
                    body,
                    cases,
                },
            ) => {
                self.count(point)?;
                self.take_turn(temp, this, last, body, cases)
            }
        }
    }

    // What a statement does, once it was counted and taken from what remains; the tables are those
    // of its exchange.
    #[tactic(auto, using(crate::proofs::Performing::inside))]
    fn perform(
        &mut self,
        store: &mut Seq<u32>,
        statement: &'a Stmt,
        cases: &'a Cases,
    ) -> Result<(), Stop>
        requires { IsOfText cases.now statement.now }
        ensures { Does (out-StmtKind statement.now.kind)
            self.old store.old result self.new store.new }
    {
        match &statement.kind {
            StmtKind::Enter { .. } => Ok(()),
            StmtKind::SetTemp { temp, value } => self.assign_temp(store, *temp, value),
            StmtKind::SetVariable { variable, value } => {
                self.assign_variable(store, *variable, value)
            }
            StmtKind::SetField {
                file,
                field,
                pointer,
                value,
            } => self.assign_field(store, *file, *field, *pointer, value),
            StmtKind::Goto { label } => self.jump(store, *label),
            StmtKind::IfGoto { cond, label } => self.jump_if(store, cond, *label),
            StmtKind::If { cond, yes, no } => {
                self.choose(store, cond, yes.as_slice(), no.as_slice(), cases)
            }
            StmtKind::Case {
                value,
                whens,
                otherwise,
            } => self.choose_case(
                store,
                value,
                whens.as_slice(),
                otherwise.as_slice(),
                statement.point,
                cases,
            ),
            StmtKind::On {
                temp,
                from,
                upto,
                body,
            } => self.begin_turns(store, *temp, from, upto, body.as_slice(), cases),
            StmtKind::ForFirst {
                temp,
                file,
                field,
                rel,
                value,
                label,
            } => self.go_to_first(store, *temp, *file, *field, *rel, value, *label),
            StmtKind::Send {
                signal,
                to,
                values,
                fresh,
            } => self.send(store, *signal, *to, values.as_slice(), *fresh),
            StmtKind::Retrieve { answer, temps } => self.retrieve(store, *answer, temps.as_slice()),
            StmtKind::Return { answer, values } => self.answer(store, *answer, values.as_slice()),
            StmtKind::Transfer { signal, to } => self.transfer(store, *signal, *to),
            StmtKind::Seize { temp, file, label } => self.seize(store, *temp, *file, *label),
            StmtKind::Free { temp, file } => self.free(store, *temp, *file),
            StmtKind::Exit | StmtKind::Finish => self.end(),
        }
    }
}
