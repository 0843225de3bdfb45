use certificate_text::Shape;
use flow_points::Fact;
use plex_num::Memory;

/// Why a certificate is not one of an exchange, or that memory was refused.
#[derive(Clone, Copy)]
pub enum CertFault {
    /// The exchange has another shape than the certificate tells.
    WrongExchange { exchange: Shape, certificate: Shape },
    /// The shapes are the same, and this is the first fact that is strange: the exchange lacks its
    /// entry, its point or its slot, or its value is one that jobs of the entry do not start with.
    StrangeFact { fact: Fact },
    /// No fact is strange, and this is the least one that follows by one rule from the facts and is
    /// not among them.
    MissingFact { fact: Fact },
    Memory,
}

impl From<Memory> for CertFault {
    ghost use Rattle.std.specs.Prelude.{◌≡◌};
    ghost use Rattle.certificate_meaning.specs.declared.fault.CertFault.TheVariants.{Memory};

    ghost from_gives = { λ _ e. e ≡ Memory };

    fn from(_: Memory) -> CertFault {
        CertFault::Memory
    }
}
