// What becomes of certificates, said by clauses.
ghost use Rattle.std.specs.Prelude.{◌≢◌, ◌⊎◌, ℕ, List};
ghost use Rattle.exchange_model.specs.declared.exchange.Exchange.{Exchange};
ghost use Rattle.exchange_model.specs.Kept.{IsExchange};
ghost use Rattle.certificate_text.specs.declared.certificate.Certificate.{Certificate};
ghost use Rattle.certificate_text.specs.Lines.{HasBadLine, IsTextOf};
ghost use Rattle.certificate_meaning.specs.Certified.{IsCertificate};
ghost use Rattle.certificate_meaning.specs.declared.fault.CertFault.{CertFault};
ghost use Rattle.certificate_meaning.specs.declared.fault.CertFault.TheVariants.{Memory};
ghost use Rattle.certificate_meaning.specs.Verdicts.{IsClosedCertificate, Refuses};

/// An exchange has a certificate.
pub fn certificates_come()
    ensures { (x : Exchange) → IsExchange x → (c : Certificate) × IsCertificate x c }
{}

/// A certificate is one of an exchange, or is refused for some reason that is no want of memory.
pub fn certificates_are_judged()
    ensures { (x : Exchange) (c : Certificate) → IsExchange x
        → IsClosedCertificate x c ⊎ ((f : CertFault) × (f ≢ Memory) × Refuses x c f) }
{}

/// A text is that of a certificate, or has a first line that is not as stated.
pub fn texts_are_read()
    ensures { (text : List ℕ)
        → ((c : Certificate) × IsTextOf text c) ⊎ ((line : ℕ) × HasBadLine text line) }
{}
