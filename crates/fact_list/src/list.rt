// A list of facts that rises.
ghost use Rattle.std.specs.Prelude.{◌≡◌, ◌↔◌, IsTrue, IfOk};
ghost use Rattle.std.specs.List.{Contains};
ghost use Rattle.std.specs.List.Sorted.{IsStrictlySortedBy};
ghost use Rattle.flow_points.specs.declared.fact.Fact.{Fact};
ghost use Rattle.flow_points.specs.Facts.{Reached, fact};
ghost use Rattle.flow_points.specs.Orders.{fact_order};
ghost use Rattle.flow_table.specs.Giving.{AreValues};
ghost use Rattle.fact_list.specs.Spans.{Rises};

use crate::index::Index;
use crate::search::{between, span_of, values_of};
use flow_points::{Fact, Slot, Value};
use flow_table::KnownFacts;
use plex_num::{Memory, Seq};
use std::alloc::Global;
use std::marker::Model;

/// Facts in their order, each once, which contracts see as the list of them. Beside them stands
/// where those of each entry at each point are.
pub struct FactList {
    facts: Seq<Fact>,
    index: Index,
}

impl Drop for FactList {
    fn drop(self) {
        let FactList { facts: _, index: _ } = self;
    }
}

impl Model for FactList {
    ghost use Rattle.std.specs.Prelude.{List};
    ghost use Rattle.std.specs.List.Sorted.{IsStrictlySortedBy};
    ghost use Rattle.flow_points.specs.declared.fact.Fact.{Fact};
    ghost use Rattle.flow_points.specs.Orders.{fact_order};

    ghost Value = { List Fact };

    ghost view = { λ l. l.facts };

    ghost invariant = { λ l. IsStrictlySortedBy fact_order l.facts };
}

impl FactList {
    /// The list of these facts, which must stand in their order, each once. Memory is the only
    /// reason for an error.
    pub fn new(alloc: Global, facts: Seq<Fact>) -> Result<FactList, Memory>
        requires { IsStrictlySortedBy fact_order facts }
        ensures { IfOk result (λ list. list ≡ facts) }
    {
        let index = Index::new(alloc, facts.as_slice())?;
        Ok(FactList { facts, index })
    }

    /// The facts, in their order, each once.
    pub fn facts(&self) -> &Seq<Fact>
        ensures facts { result.now ≡ self.now }
        ensures rising { IsStrictlySortedBy fact_order self.now }
    {
        &self.facts
    }

    /// Whether a fact is among them.
    pub fn has(&self, fact: Fact) -> bool
        ensures { IsTrue result ↔ Contains self.now fact }
    {
        let hint = self.index.span(fact.entry, fact.point);
        let span = span_of(self.in_order(), hint, fact);
        span.from < span.to
    }

    /// The facts, each before those behind it.
    #[tactic(auto, using(crate::proofs::Searching::rising_list))]
    fn in_order(&self) -> &[Fact]
        ensures facts { result.now ≡ self.now }
        ensures rising { Rises result.now }
    {
        self.facts().as_slice()
    }
}

impl KnownFacts for FactList {
    ghost knows = { Contains };

    fn values(
        &self,
        alloc: Global,
        entry: u32,
        point: u32,
        slot: Slot,
    ) -> Result<Seq<Value>, Memory> {
        let facts = self.in_order();
        let hint = self.index.span(entry, point);
        let least = span_of(facts, hint, fact_of(entry, point, slot, Value::Arg(0)));
        let greatest = span_of(facts, hint, fact_of(entry, point, slot, Value::Any));
        values_of(alloc, between(facts, least.from, greatest.to))
    }

    fn is_reached(&self, entry: u32, point: u32) -> bool {
        let facts = self.in_order();
        let hint = self.index.span(entry, point);
        let least = span_of(
            facts,
            hint,
            fact_of(entry, point, Slot::Depth, Value::Arg(0)),
        );
        let greatest = span_of(facts, hint, fact_of(entry, point, Slot::Depth, Value::Any));
        least.from < greatest.to
    }
}

fn fact_of(entry: u32, point: u32, slot: Slot, value: Value) -> Fact
    ensures { result ≡ fact entry point slot value }
{
    Fact {
        entry,
        point,
        slot,
        value,
    }
}
