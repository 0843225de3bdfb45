// Facts, put in order.
ghost use Rattle.std.specs.Prelude.{◌↔◌, Contains};
ghost use Rattle.std.specs.List.Sorted.{IsStrictlySortedBy};
ghost use Rattle.flow_points.specs.declared.fact.Fact.{Fact as FactType};
ghost use Rattle.flow_points.specs.Orders.{fact_order};

use flow_points::Fact;
use plex_num::Seq;

/// These facts in their order, each once.
pub fn in_order(facts: Seq<Fact>) -> Seq<Fact>
    ensures same { (f : FactType) → Contains result f ↔ Contains facts f }
    ensures rising { IsStrictlySortedBy fact_order result }
{
    let mut sorted = facts.into_vec();
    sorted.sort_unstable();
    sorted.dedup();
    Seq::from_vec(sorted)
}
