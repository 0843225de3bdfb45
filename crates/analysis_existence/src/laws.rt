// What there is to tell of each exchange, said by clauses.
ghost use Rattle.std.specs.Prelude.{ℕ, List};
ghost use Rattle.std.specs.List.{Contains};
ghost use Rattle.exchange_model.specs.declared.exchange.Exchange.{Exchange};
ghost use Rattle.flow_points.specs.declared.fact.Fact.{Fact};
ghost use Rattle.entry_summary.specs.declared.summary.Summary.{Summary};
ghost use Rattle.entry_summary.specs.Summaries.{IsSummary};
ghost use Rattle.certificate_meaning.specs.Summaries.{AreSummaries};
ghost use Rattle.analysis_text.specs.Analysis.{IsAnalysis};

/// Facts that are a list say of the jobs of each entry what a summary says, and an exchange has its
/// summaries.
pub fn summaries_come()
    ensures entry { (x : Exchange) (facts : List Fact) (e : ℕ)
        → (s : Summary) × IsSummary x (Contains facts) e s }
    ensures all { (x : Exchange) → (summaries : List Summary) × AreSummaries x summaries }
{}

/// The analysis of an exchange has a text.
pub fn analyses_come()
    ensures { (x : Exchange) (summaries : List Summary)
        → (text : List ℕ) × IsAnalysis x summaries text }
{}
