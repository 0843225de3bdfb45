// The least facts of an entry.
ghost use Rattle.std.specs.Prelude.{◌≡◌, ◌↔◌, ℕ, IfOk, OnOk};
ghost use Rattle.std.specs.List.{Contains};
ghost use Rattle.std.specs.List.Sorted.{IsStrictlySortedBy};
ghost use Rattle.flow_points.specs.declared.fact.Fact.{Fact};
ghost use Rattle.flow_points.specs.Facts.{IsLeast};
ghost use Rattle.flow_points.specs.Orders.{fact_order};
ghost use Rattle.flow_table.specs.Rows.{IsFlowTable};
ghost use Rattle.exchange_model.specs.declared.exchange.Exchange.{Exchange as ExchangeType};
ghost use Rattle.least_facts.specs.Giving.{IsOwnLeast};
ghost use Rattle.least_facts.specs.Least.{HasLearned, IsFor, KnowLeast};
ghost use Rattle.least_facts.specs.Looks.{FindsWithin, HasFacts};

use crate::counting::looks_for_facts;
use crate::finding::find;
use crate::looks::Looked;
use crate::order::{Place, order_of};
use crate::setting::Setting;
use answer_table::{AnswerTable, answers_of};
use exchange_model::Exchange;
use fact_rows::FactRows;
use flow_points::Fact;
use flow_table::FlowTable;
use plex_num::{Memory, Seq};
use std::alloc::Global;

/// What the least facts of entries are found with. It is made once for an exchange, so that each
/// entry takes the time of its own facts and of the flows between them.
pub struct Analyser {
    answers: AnswerTable,
    order: Seq<Place>,
    rows: FactRows,
}

impl Drop for Analyser {
    fn drop(self) {
        let Analyser {
            answers: _,
            order: _,
            rows: _,
        } = self;
    }
}

impl Analyser {
    /// The analyser of an exchange, of which this is the table.
    pub fn new(alloc: Global, exchange: &Exchange, table: &FlowTable) -> Result<Analyser, Memory>
        ensures { IfOk result (IsFor exchange.now table.now) }
    {
        Ok(Analyser {
            answers: answers_of(alloc, exchange)?,
            order: order_of(alloc, table)?,
            rows: FactRows::new(alloc, table)?,
        })
    }

    /// Learns the least facts of an entry, in place of what it has learned before. Where there is a
    /// bound, `most`, and more slots than that were looked at, of which no more are told than
    /// `LOOKS_OF_FACT` for each fact that was found, it is `Over`, and nothing of use is learned.
    /// After `Memory` the analyser is of no more use.
    pub fn learn(
        &mut self,
        alloc: Global,
        exchange: &Exchange,
        table: &FlowTable,
        entry: u32,
        most: Option<usize>,
    ) -> Result<Looked, Memory>
        requires table { IsFlowTable exchange.now table.now }
        requires own { IsFor exchange.now table.now self.old }
        ensures learned { IfOk result (FindsWithin (IsOwnLeast exchange.now entry) most
            (HasLearned exchange.now entry self.new)) }
        ensures own { OnOk result (IsFor exchange.now table.now self.new) }
    {
        let setting = Setting {
            alloc,
            exchange,
            table,
            answers: &self.answers,
            order: &self.order,
            entry,
        };
        let looked = find(&setting, most, &mut self.rows)?;
        Ok(looked)
    }

    /// The facts that it has learned.
    pub fn known(&self) -> &FactRows
        ensures { (x : ExchangeType) (e : ℕ) → HasLearned x e self.now → KnowLeast x e result.now }
    {
        &self.rows
    }

    /// The looks that are told where so many were made: no more than `LOOKS_OF_FACT` for each fact
    /// that it has learned. Memory is the only reason for an error.
    pub fn told(&self, alloc: Global, looks: usize) -> Result<usize, Memory>
        ensures { IfOk result (λ told. (x : ExchangeType) (e : ℕ) → HasLearned x e self.now
            → HasFacts (IsOwnLeast x e) told) }
    {
        let told = looks_for_facts(alloc, &self.rows, looks)?;
        Ok(told)
    }

    /// The least facts of an entry, in order. After `Memory` the analyser is of no more use.
    #[tactic(auto, using(crate::proofs::Growing::found_rising))]
    pub fn facts_of(
        &mut self,
        alloc: Global,
        exchange: &Exchange,
        table: &FlowTable,
        entry: u32,
    ) -> Result<Seq<Fact>, Memory>
        requires table { IsFlowTable exchange.now table.now }
        requires own { IsFor exchange.now table.now self.old }
        ensures exact { IfOk result (λ facts. (f : Fact)
            → Contains facts f ↔ ((f.entry ≡ entry) × IsLeast exchange.now f)) }
        ensures order { IfOk result (λ facts. IsStrictlySortedBy fact_order facts) }
        ensures own { OnOk result (IsFor exchange.now table.now self.new) }
    {
        self.learn(alloc, exchange, table, entry, None)?;
        let facts = self.rows.facts(alloc)?;
        Ok(facts)
    }
}

/// The least facts of one entry of an exchange, of which this is the table, in order. For several
/// entries an `Analyser` is made once.
pub fn facts_of(
    alloc: Global,
    exchange: &Exchange,
    table: &FlowTable,
    entry: u32,
) -> Result<Seq<Fact>, Memory>
    requires table { IsFlowTable exchange.now table.now }
    ensures exact { IfOk result (λ facts. (f : Fact)
        → Contains facts f ↔ ((f.entry ≡ entry) × IsLeast exchange.now f)) }
    ensures order { IfOk result (λ facts. IsStrictlySortedBy fact_order facts) }
{
    let mut analyser = Analyser::new(alloc, exchange, table)?;
    analyser.facts_of(alloc, exchange, table, entry)
}
