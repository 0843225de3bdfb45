// A job retires.
ghost use Rattle.std.specs.Prelude.{◌≡◌, ◌≢◌, ◌<◌, ◌≤◌, false};
ghost use Rattle.job_types.specs.Forlopps.{is_dead};
ghost use Rattle.run_books.specs.Retired.{Retires, Settles, chain_kept, retired_trace};
ghost use Rattle.run_books.specs.Stores.{MayStore};
ghost use Rattle.source_meaning.specs.Valid.{MayBe};
ghost use Rattle.store_layout.specs.Laid.{IsLayout};

use crate::aftermath::aftermath_of;
use crate::books::Books;
use crate::deliveries::deliver_all;
use crate::event::Faulty;
use crate::faults::{begin_anew, release, reserve_each};
use crate::stores::{Write, make_stores};
use exchange_model::Exchange;
use forlopp_chain::Chains;
use job_types::{Chain, JobDone, JobStart, Outcome};
use machine_code::Words;
use plex_num::{Memory, Seq};
use store_layout::Layout;

impl Books {
    /// A job of this start retires, which left this: it counts as ended, its sends take effect in
    /// order, its chain becomes its forlopp's, and a fault releases the forlopp or, where there is
    /// none, lets the exchange begin anew. The words get the values that records and CLEAR
    /// variables begin with. A job must run, the forlopp must be none or a live number that was
    /// drawn, and the words must let be stored what a release or a restart stores; that it is the
    /// job that has run longest is for the caller to see to. All room is taken first: memory is the
    /// only reason for an error, and then books and words stay as they were.
    #[tactic(auto, using(crate::proofs::Settled::has_retired, crate::proofs::Written::stores_allowed))]
    pub fn retire<W: Words>(
        &mut self,
        exchange: &Exchange,
        layout: &Layout,
        start: &JobStart,
        done: &JobDone,
        words: &mut W,
    ) -> Result<(), Memory>
        requires running { 0 < self.old.running }
        requires forlopp { MayBe self.old.state start.now.job.forlopp }
        requires layout { IsLayout exchange.now.blocks layout.now }
        requires words { MayStore (W.may_write words.old)
            (retired_trace exchange.now start.now done.now self.old.state (W.values words.old)) }
        ensures retired { Retires exchange.now start.now done.now self.old self.new
            (W.values words.old) (W.values words.new) (W.told words.old) (W.told words.new) result }
        ensures allowed { (W.may_read words.new ≡ W.may_read words.old)
            × (W.may_write words.new ≡ W.may_write words.old) }
        ensures like { W.like words.old words.new }
    {
        let stores = self.settle(exchange, layout, start, done)?;
        make_stores(stores.as_slice(), words);
        Ok(())
    }

    /// A job of this start retires in the books; what comes back are the stores that are to be
    /// made. Where memory is refused, nothing changes.
    fn settle(
        &mut self,
        exchange: &Exchange,
        layout: &Layout,
        start: &JobStart,
        done: &JobDone,
    ) -> Result<Seq<Write>, Memory>
        requires running { 0 < self.old.running }
        requires forlopp { MayBe self.old.state start.now.job.forlopp }
        requires layout { IsLayout exchange.now.blocks layout.now }
        ensures { Settles exchange.now start.now done.now self.old self.new result }
    {
        let forlopp = start.job.forlopp;
        let sends = done.sends.as_slice();
        reserve_each(&mut self.waiting, sends.len())?;
        self.events.reserve(sends.len() + 1)?;
        self.chains.reserve()?;
        let after = aftermath_of(self.alloc, exchange, layout, &self.chains, forlopp, done)?;
        self.ended += 1;
        self.running -= 1;
        self.next = deliver_all(
            &mut self.waiting,
            &mut self.events,
            self.next,
            self.ended,
            forlopp,
            sends,
        );
        keep_chain(&mut self.chains, forlopp, &done.chain);
        let Outcome::Faulted { fault, point } = done.outcome else {
            return Ok(after.stores);
        };
        let faulty = Faulty {
            job: self.ended,
            fault,
            point,
        };
        if forlopp == 0 {
            self.restarts += 1;
            begin_anew(
                &mut self.waiting,
                &mut self.chains,
                &mut self.events,
                self.next,
                after.records,
                faulty,
            );
            return Ok(after.stores);
        }
        release(
            &mut self.waiting,
            &mut self.chains,
            &mut self.events,
            forlopp,
            faulty,
        );
        Ok(after.stores)
    }
}

/// The chain of a job is its forlopp's, if it has one, which then is live. There must be room for a
/// chain.
fn keep_chain(chains: &mut Chains, forlopp: u64, chain: &Chain)
    requires room { 0 < chains.old.puts }
    requires live { forlopp ≢ 0 → is_dead chains.old.dead forlopp ≡ false }
    ensures chains { chains.new.chains ≡ chain_kept forlopp chain.now chains.old.chains }
    ensures dead { chains.new.dead ≡ chains.old.dead }
    ensures deaths { chains.new.deaths ≡ chains.old.deaths }
{
    if forlopp == 0 {
        return;
    }
    chains.put_reserved(forlopp, chain.copy());
}
