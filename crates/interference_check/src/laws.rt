// What holds of permits, said by clauses.
ghost use Rattle.exchange_model.specs.declared.exchange.Exchange.{Exchange};
ghost use Rattle.entry_summary.specs.declared.summary.Summary.{Summary};
ghost use Rattle.job_types.specs.declared.job.JobStart.{JobStart};
ghost use Rattle.machine_code.specs.Permits.{Apart};
ghost use Rattle.machine_code.specs.declared.permit.Permit.{Permit};
ghost use Rattle.pair_laws.specs.Together.{HaveOwnWords};
ghost use Rattle.source_meaning.specs.State.{State};
ghost use Rattle.interference_check.specs.Permits.{IsPermitOf};

/// The permits of two jobs that run together are apart: no word that one of them lets be written is
/// in the other one.
pub fn permits_of_two_are_apart()
    ensures { (x : Exchange) (s : State) (first later : Summary) (a b : JobStart) (p q : Permit)
        → HaveOwnWords x s first later a b
        → IsPermitOf x first a s.chains p → IsPermitOf x later b s.chains q → Apart p q }
{}
