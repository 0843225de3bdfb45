// What has one value alone, said by clauses.
ghost use Rattle.std.specs.Prelude.{◌≡◌, ◌≢◌, ℕ, List};
ghost use Rattle.std.specs.List.{Contains};
ghost use Rattle.exchange_model.specs.declared.exchange.Exchange.{Exchange};
ghost use Rattle.flow_points.specs.declared.fact.Fact.{Fact};
ghost use Rattle.flow_points.specs.Facts.{IsLeast};
ghost use Rattle.flow_points.specs.Orders.{fact_order};
ghost use Rattle.entry_summary.specs.declared.summary.Summary.{Summary};
ghost use Rattle.entry_summary.specs.Summaries.{IsSummary};
ghost use Rattle.certificate_meaning.specs.Summaries.{AreSummaries};
ghost use Rattle.analysis_text.specs.Analysis.{IsAnalysis};
ghost use Rattle.certificate_text.specs.declared.certificate.Certificate.{Certificate};
ghost use Rattle.certificate_meaning.specs.Certified.{IsCertificate, IsTextOfCertificate};
ghost use Rattle.certificate_meaning.specs.declared.fault.CertFault.{CertFault};
ghost use Rattle.certificate_meaning.specs.declared.fault.CertFault.TheVariants.{Memory};
ghost use Rattle.checked.specs.Kept.{KeptSummaries};
ghost use Rattle.certificate_meaning.specs.Verdicts.{Accepts, Refuses};

/// What facts say of the jobs of an entry is one summary, and an exchange has one list of summaries
/// by its least facts.
pub fn summaries_are_one()
    ensures entry { (x : Exchange) (facts : List Fact) (e : ℕ) (s t : Summary)
        → IsSummary x (Contains facts) e s → IsSummary x (Contains facts) e t → s ≡ t }
    ensures least { (x : Exchange) (e : ℕ) (s t : Summary)
        → IsSummary x (IsLeast x) e s → IsSummary x (IsLeast x) e t → s ≡ t }
    ensures all { (x : Exchange) (ss ts : List Summary)
        → AreSummaries x ss → AreSummaries x ts → ss ≡ ts }
{}

/// The analysis of an exchange has one text.
pub fn analyses_are_one()
    ensures { (x : Exchange) (summaries : List Summary) (one other : List ℕ)
        → IsAnalysis x summaries one → IsAnalysis x summaries other → one ≡ other }
{}

/// An exchange has one certificate of its own, and that has one text.
pub fn certificates_are_one()
    ensures certificate { (x : Exchange) (c d : Certificate)
        → IsCertificate x c → IsCertificate x d → c ≡ d }
    ensures text { (x : Exchange) (one other : List ℕ)
        → IsTextOfCertificate x one → IsTextOfCertificate x other → one ≡ other }
{}

/// A certificate is refused for one reason, but for want of memory.
pub fn refusals_are_one()
    ensures { (x : Exchange) (c : Certificate) (one other : CertFault)
        → one ≢ Memory → other ≢ Memory → Refuses x c one → Refuses x c other → one ≡ other }
{}

/// What is kept of a certificate is one.
pub fn kept_summaries_are_one()
    ensures { (x : Exchange) (c : Certificate) (k l : KeptSummaries)
        → Accepts x c k → Accepts x c l → k ≡ l }
{}
