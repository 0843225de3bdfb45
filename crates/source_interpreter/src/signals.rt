// Statements that send signals and answer them.
ghost use Rattle.std.specs.Prelude.{◌≡◌, ◌≤◌, length};
ghost use Rattle.plex_limits.specs.declared.limits.TheConstants.{MOST_VALUES as MOST};
ghost use Rattle.exchange_model.specs.declared.stmt.StmtKind.TheOpen as stmt;
ghost use Rattle.source_meaning.specs.Changes.{asks};
ghost use Rattle.source_interpreter.specs.Kept.{AreExprsOfText};
ghost use Rattle.source_interpreter.specs.Leaves.{Does, Leads, to_kind};

use crate::run::Run;
use crate::stop::Stop;
use crate::text::{entry_number, value_count};
use exchange_model::{Expr, Receiver, SignalKind};
use job_types::{Fault, SendTo};
use plex_limits::MOST_CALLERS;
use plex_num::{Seq, Values};

impl<'a> Run<'a> {
    /// SEND: the receiver is found first, then the values, and then the signal goes by its kind.
    #[tactic(auto, using(crate::proofs::Sending::send_lost, crate::proofs::Sending::send_stops, crate::proofs::Sending::send_goes))]
    pub fn send(
        &mut self,
        store: &Seq<u32>,
        signal: u32,
        to: Option<Receiver>,
        values: &[Expr],
        fresh: bool,
    ) -> Result<(), Stop>
        requires few { length values.now ≤ MOST }
        requires values { AreExprsOfText values.now }
        ensures { Does (stmt.Send signal to values.now fresh)
            self.old store.now result self.new store.now }
    {
        let block = self.receiver(signal, to, store)?;
        let values = self.values(values, store)?;
        self.send_to(block, signal, values, fresh)
    }

    // A signal goes to a block with its values, by its kind.
    #[tactic(auto, using(crate::proofs::Sending::kinds))]
    fn send_to(&mut self, block: u32, signal: u32, values: Values, fresh: bool) -> Result<(), Stop>
        ensures { Leads (to_kind self.old signal block fresh values) self.old result self.new }
    {
        match self.signal(signal) {
            Some(SignalKind::Buffered { level, .. }) => {
                let entry = entry_number(self.exchange(), block, signal);
                let to = SendTo::Queue {
                    entry,
                    level: *level,
                    fresh,
                };
                self.post(to, values)?;
                Ok(())
            }
            Some(SignalKind::Outside { .. }) => {
                self.post(SendTo::Outside { signal }, values)?;
                Ok(())
            }
            Some(SignalKind::Direct { .. }) => {
                self.activate(block, signal, values.as_slice())?;
                Ok(())
            }
            Some(SignalKind::Combined { answer, .. }) => self.ask(block, signal, *answer, &values),
            Some(SignalKind::Answer { .. }) => Ok(()),
            None => Ok(()),
        }
    }

    // The job waits for an answer and begins an activation in the receiver, unless so many wait as
    // may.
    #[tactic(auto, using(crate::proofs::Sending::asks_goes, crate::proofs::Sending::asks_deep, crate::proofs::Follow::as_memory))]
    fn ask(&mut self, block: u32, signal: u32, answer: u32, values: &Values) -> Result<(), Stop>
        ensures { Leads (asks self.old.exchange block signal answer self.old.todo values.now)
            self.old result self.new }
    {
        if self.callers() >= MOST_CALLERS {
            return Err(Stop::Fault(Fault::Depth));
        }
        self.wait(answer)?;
        self.activate(block, signal, values.as_slice())?;
        Ok(())
    }

    /// RETRIEVE: the temporaries get the values of the answer.
    #[tactic(auto, using(crate::proofs::Sending::retrieve_goes))]
    pub fn retrieve(&mut self, store: &Seq<u32>, answer: u32, temps: &[u8]) -> Result<(), Stop>
        ensures { Does (stmt.Retrieve answer temps.now)
            self.old store.now result self.new store.now }
    {
        self.take_answers(temps);
        Ok(())
    }

    /// RETURN: the job goes on at the caller that waits for this answer.
    #[tactic(auto, using(crate::proofs::Sending::returned))]
    pub fn answer(&mut self, store: &Seq<u32>, answer: u32, values: &[Expr]) -> Result<(), Stop>
        requires few { length values.now ≤ MOST }
        requires values { AreExprsOfText values.now }
        ensures { Does (stmt.Return answer values.now)
            self.old store.now result self.new store.now }
    {
        let values = self.values(values, store)?;
        let Some(frame) = self.take_caller() else {
            return Err(Stop::Fault(Fault::BadEnd));
        };
        if frame.awaits != answer {
            return Err(Stop::Fault(Fault::BadEnd));
        }
        self.resume(frame, values.as_slice());
        Ok(())
    }

    /// TRANSFER: the receiver gets as many of the entry values as the signal has.
    #[tactic(auto, using(crate::proofs::Sending::transfer_goes, crate::proofs::Sending::transfer_lost, crate::proofs::Follow::as_memory))]
    pub fn transfer(
        &mut self,
        store: &Seq<u32>,
        signal: u32,
        to: Option<Receiver>,
    ) -> Result<(), Stop>
        ensures { Does (stmt.Transfer signal to) self.old store.now result self.new store.now }
    {
        let receiver = self.receiver(signal, to, store)?;
        let count = value_count(self.exchange(), signal);
        self.pass_on(receiver, signal, count)?;
        Ok(())
    }
}
