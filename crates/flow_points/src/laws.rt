// What holds of facts, whichever they are, said by clauses.
ghost use Rattle.std.specs.Prelude.{ℕ, List};
ghost use Rattle.std.specs.List.{Contains};
ghost use Rattle.exchange_model.specs.declared.exchange.Exchange.{Exchange};
ghost use Rattle.flow_points.specs.declared.fact.Fact.{Fact};
ghost use Rattle.flow_points.specs.Facts.{Gives, IsClosed, IsLeast, KnowsAlike, PointGives};
ghost use Rattle.flow_points.specs.Facts.{ReachesAlike};

/// The least facts are closed, and they stand in every list of facts that is closed. What some
/// facts give, more facts give too.
pub fn least_facts_are_closed()
    ensures closed { (x : Exchange) → IsClosed x (IsLeast x) }
    ensures least { (x : Exchange) (facts : List Fact) (f : Fact)
        → IsClosed x (Contains facts) → IsLeast x f → Contains facts f }
    ensures more { (x : Exchange) (facts others : List Fact) (f : Fact)
        → ((g : Fact) → Contains facts g → Contains others g)
        → Gives x (Contains facts) f → Gives x (Contains others) f }
{}

/// What flows from a point looks only at facts at that point, and for an answer at whether its
/// RETRIEVE is reached.
pub fn flows_look_at_their_point()
    ensures { (x : Exchange) (facts others : List Fact) (p : ℕ) (f : Fact)
        → KnowsAlike (Contains facts) (Contains others) f.entry p
        → ReachesAlike x (Contains facts) (Contains others) f.entry p
        → PointGives x (Contains facts) p f → PointGives x (Contains others) p f }
{}
