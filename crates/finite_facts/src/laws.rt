// That the facts of an exchange have an end, said by a clause.
ghost use Rattle.std.specs.Prelude.{◌↔◌, List};
ghost use Rattle.std.specs.List.{Contains};
ghost use Rattle.exchange_model.specs.declared.exchange.Exchange.{Exchange};
ghost use Rattle.flow_points.specs.declared.fact.Fact.{Fact};
ghost use Rattle.flow_points.specs.Facts.{IsLeast};

/// The least facts of an exchange are finitely many: some list has exactly these.
pub fn least_facts_are_a_list()
    ensures { (x : Exchange)
        → (facts : List Fact) × ((f : Fact) → Contains facts f ↔ IsLeast x f) }
{}
