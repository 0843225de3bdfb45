// What holds of all certificates and of all conflicts, said by clauses.
ghost use Rattle.std.specs.Prelude.{◌≡◌, ℕ, List};
ghost use Rattle.std.specs.List.{Contains};
ghost use Rattle.job_types.specs.Forlopps.{ChainMap};
ghost use Rattle.job_types.specs.declared.job.JobStart.{JobStart};
ghost use Rattle.exchange_model.specs.declared.exchange.Exchange.{Exchange};
ghost use Rattle.exchange_model.specs.Kept.{IsExchange};
ghost use Rattle.flow_points.specs.declared.fact.Fact.{Fact};
ghost use Rattle.flow_points.specs.declared.fact.Value.{Value};
ghost use Rattle.flow_points.specs.Facts.{IsClosed, IsLeast};
ghost use Rattle.entry_summary.specs.declared.summary.Summary.{Summary};
ghost use Rattle.entry_summary.specs.Summaries.{IsSummary};
ghost use Rattle.checked.specs.Kept.{IsChecked, KeptSummaries};
ghost use Rattle.certificate_text.specs.declared.certificate.Certificate.{Certificate};
ghost use Rattle.certificate_meaning.specs.Summaries.{AreSummaries};
ghost use Rattle.certificate_meaning.specs.Verdicts.{Accepts};
ghost use Rattle.pair_tests.specs.declared.pair.Conflict.{Conflict};
ghost use Rattle.pair_tests.specs.declared.pair.Conflict.TheVariants as conflict;
ghost use Rattle.pair_tests.specs.declared.pair.Test.{Test};
ghost use Rattle.pair_tests.specs.declared.pair.Verdict.{Verdict};
ghost use Rattle.pair_tests.specs.declared.pair.Verdict.TheVariants.{Never, Tests};
ghost use Rattle.pair_tests.specs.Pairs.{IsConflict, IsTest, IsVerdict, Passes, TestHolds};
ghost use Rattle.interference_check.specs.Pairs.{OfPair};
ghost use Rattle.precision_laws.specs.Summaries.{IsNeverBy, IsSummaryOf, SaysNoMore};
ghost use Rattle.precision_laws.specs.Words.{BothSelect, IsShared, PassBesides, SharesField};
ghost use Rattle.precision_laws.specs.Words.{SharesMarks, SharesRecord, SharesVariable};
ghost use Rattle.precision_laws.specs.Words.{TellsRecord};

/// Of one entry, fewer facts say no more than more facts, and the least facts no more than any that
/// are closed: each access and each level is one by the other facts too, and where its jobs may
/// fault by the fewer facts, they may by the other ones.
pub fn more_facts_say_more()
    ensures facts { (x : Exchange) (facts others : List Fact) (e : ℕ) (less more : Summary)
        → ((f : Fact) → Contains facts f → Contains others f)
        → IsSummary x (Contains facts) e less → IsSummary x (Contains others) e more
        → SaysNoMore less more }
    ensures least { (x : Exchange) (facts : List Fact) (e : ℕ) (less more : Summary)
        → IsClosed x (Contains facts)
        → IsSummary x (IsLeast x) e less → IsSummary x (Contains facts) e more
        → SaysNoMore less more }
{}

/// Summaries that say no more make no other conflict and ask for no other test, and two jobs that
/// pass by those that say more pass by these.
pub fn smaller_summaries_let_more_pass()
    ensures conflicts { (first later more_first more_later : Summary) (c : Conflict)
        → SaysNoMore first more_first → SaysNoMore later more_later
        → IsConflict first later c → IsConflict more_first more_later c }
    ensures tests { (first later more_first more_later : Summary) (t : Test)
        → SaysNoMore first more_first → SaysNoMore later more_later
        → IsTest first later t → IsTest more_first more_later t }
    ensures jobs { (first later more_first more_later : Summary) (a b : JobStart)
        → SaysNoMore first more_first → SaysNoMore later more_later
        → Passes more_first more_later a b → Passes first later a b }
{}

/// No certificate of an exchange lets more run together than the exchange's own. What is kept of
/// one that is accepted is checked. Two jobs that pass by the summaries of a checked certificate
/// pass by those of the least facts. A pair of entries that is let run together where tests hold is
/// so by the least facts, and each test that these ask for is one of the certificate's. Where the
/// least facts say NEVER, so does each certificate: each conflict by the least facts is one by its
/// facts, and it tells none that comes after the one that the least facts tell.
pub fn own_certificate_is_best()
    ensures accepted { (x : Exchange) (c : Certificate) (k : KeptSummaries)
        → Accepts x c k → IsChecked x k }
    ensures jobs { (x : Exchange) (k own : KeptSummaries) (a b : JobStart)
        → IsChecked x k → AreSummaries x own.summaries
        → OfPair k a.job.entry b.job.entry (λ one other. Passes one other a b)
        → OfPair own a.job.entry b.job.entry (λ one other. Passes one other a b) }
    ensures pairs { (x : Exchange) (k own : KeptSummaries) (first later : ℕ)
        → IsChecked x k → AreSummaries x own.summaries
        → OfPair k first later (λ one other. IsVerdict one other Tests)
        → OfPair own first later (λ one other. IsVerdict one other Tests) }
    ensures never { (x : Exchange) (k own : KeptSummaries) (first later : ℕ) (c : Conflict)
        (v : Verdict) → IsChecked x k → AreSummaries x own.summaries
        → OfPair own first later (λ one other. IsVerdict one other (Never c))
        → OfPair k first later (λ one other. IsVerdict one other v) → IsNeverBy c v }
    ensures conflicts { (x : Exchange) (k own : KeptSummaries) (first later : ℕ) (c : Conflict)
        → IsChecked x k → AreSummaries x own.summaries
        → OfPair own first later (λ one other. IsConflict one other c)
        → OfPair k first later (λ one other. IsConflict one other c) }
    ensures tests { (x : Exchange) (k own : KeptSummaries) (first later : ℕ) (t : Test)
        → IsChecked x k → AreSummaries x own.summaries
        → OfPair own first later (λ one other. IsTest one other t)
        → OfPair k first later (λ one other. IsTest one other t) }
{}

/// A conflict over a variable names a stored word that jobs of one entry may write and jobs of the
/// other one may read or write, whatever they start with. A conflict over a field does so in each
/// pair of jobs whose selectors both tell a record that is below the size of its file; and whatever
/// two jobs start with, some record is told by both. So does a test of a field that fails, where
/// the record that it keeps apart is below the size.
pub fn conflicts_are_about_words()
    ensures variable { (x : Exchange) (e f : ℕ) (first later : Summary) (number : ℕ)
        → IsExchange x → IsSummaryOf x e first → IsSummaryOf x f later
        → IsConflict first later (conflict.Variable number)
        → SharesVariable x first later number }
    ensures field { (x : Exchange) (e f : ℕ) (first later : Summary) (number : ℕ) (u v : Value)
        → IsExchange x → IsSummaryOf x e first → IsSummaryOf x f later
        → IsConflict first later (conflict.Field number u v)
        → SharesField x first later number u v }
    ensures record { (first later : Summary) (number : ℕ) (u v : Value) (a b : JobStart)
        → IsConflict first later (conflict.Field number u v)
        → (r : ℕ) × BothSelect u v a b r }
    ensures test { (x : Exchange) (e f : ℕ) (first later : Summary) (a b : JobStart) (t : Test)
        (r : ℕ) → IsExchange x → IsSummaryOf x e first → IsSummaryOf x f later
        → IsTest first later t → (TestHolds a b t → ⊥) → TellsRecord a t r
        → SharesRecord x first later a b r }
{}

/// A conflict over a file of which records are seized is about marks: where a record is free and
/// both jobs may seize it, or one of them holds it and may give it back while the other one seizes,
/// its mark is a word that one of them may write and the other one may read or write.
pub fn seizures_are_about_marks()
    ensures { (x : Exchange) (e f : ℕ) (first later : Summary) (file : ℕ)
        → IsExchange x → IsSummaryOf x e first → IsSummaryOf x f later
        → IsConflict first later (conflict.Seizing file) → SharesMarks x first later file }
{}

/// Two jobs of which neither may write a word that the other one may touch pass, unless something
/// else keeps them apart: a conflict over a file or a level, a test of a first job that may fault,
/// a common forlopp, or a record that both selectors of a field tell and that is not below the size
/// of its file.
pub fn jobs_without_common_words_pass()
    ensures { (x : Exchange) (e f : ℕ) (first later : Summary) (a b : JobStart) (chains : ChainMap)
        → IsExchange x → IsSummaryOf x e first → IsSummaryOf x f later
        → ((w : ℕ) → IsShared x first later a b chains w → ⊥)
        → PassBesides x first later a b → Passes first later a b }
{}
