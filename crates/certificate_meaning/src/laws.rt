// What holds of certificates, said by clauses.
ghost use Rattle.std.specs.Prelude.{◌≡◌};
ghost use Rattle.exchange_model.specs.declared.exchange.Exchange.{Exchange};
ghost use Rattle.certificate_text.specs.declared.certificate.Certificate.{Certificate};
ghost use Rattle.certificate_meaning.specs.declared.fault.CertFault.{CertFault};
ghost use Rattle.certificate_meaning.specs.declared.fault.CertFault.TheVariants.{Memory};
ghost use Rattle.certificate_meaning.specs.Verdicts.{IsClosedCertificate, Refuses};

/// A certificate that is refused for another reason than memory is none of the exchange.
pub fn refused_is_not_closed()
    ensures { (x : Exchange) (c : Certificate) (fault : CertFault)
        → Refuses x c fault → IsClosedCertificate x c → fault ≡ Memory }
{}
