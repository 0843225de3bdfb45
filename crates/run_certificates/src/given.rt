// The summaries kept of a given certificate.
ghost use Rattle.std.specs.Prelude.{◌≤◌, IfOk, IfSome, Some, length};
ghost use Rattle.plex_limits.specs.declared.limits.TheConstants.{MOST_BYTES};
ghost use Rattle.answer_meaning.specs.Certificates.{IsAcceptedOrNot, IsKeptOrNot};

use answer_meaning::CertificateFault;
use certificate_check::check;
use certificate_meaning::CertFault;
use certificate_text::{Certificate, TextFault, read_certificate};
use checked::Checked;
use exchange_model::Exchange;
use plex_num::{Memory, Seq};
use std::alloc::Global;

/// The summaries kept of the exchange's certificate that this text is, or the first fault of the
/// text; `None` is a text above the size limit.
#[tactic(auto, using(answer_meaning::proofs::Stages::judged_large))]
pub fn kept_of_text(
    alloc: Global,
    exchange: &Exchange,
    text: &Option<Seq<u8>>,
) -> Result<Result<Checked, CertificateFault>, Memory>
    requires { IfSome text.now (λ t. length t ≤ MOST_BYTES) }
    ensures { IfOk result (IsKeptOrNot exchange.now text.now) }
{
    match text {
        Some(text) => kept_of_small(alloc, exchange, text.as_slice()),
        None => Ok(Err(CertificateFault::TooLarge)),
    }
}

/// The same for a text within the size limit.
#[tactic(auto, using(answer_meaning::proofs::Stages::judged_bad))]
fn kept_of_small(
    alloc: Global,
    exchange: &Exchange,
    text: &[u8],
) -> Result<Result<Checked, CertificateFault>, Memory>
    requires { length text.now ≤ MOST_BYTES }
    ensures { IfOk result (IsKeptOrNot exchange.now (Some text.now)) }
{
    match read_certificate(alloc, text) {
        Ok(certificate) => kept_of(alloc, exchange, certificate),
        Err(TextFault::BadText { line }) => Ok(Err(CertificateFault::BadText { line })),
        Err(TextFault::Memory) => Err(Memory),
    }
}

/// The same for a certificate.
fn kept_of(
    alloc: Global,
    exchange: &Exchange,
    certificate: Certificate,
) -> Result<Result<Checked, CertificateFault>, Memory>
    ensures { IfOk result (IsAcceptedOrNot exchange.now certificate) }
{
    match check(alloc, exchange, certificate) {
        Ok(checked) => Ok(Ok(checked)),
        Err(
            CertFault::WrongExchange {
                exchange,
                certificate,
            },
        ) => Ok(Err(CertificateFault::WrongExchange {
            exchange,
            certificate,
        })),
        Err(CertFault::StrangeFact { fact }) => Ok(Err(CertificateFault::Strange { fact })),
        Err(CertFault::MissingFact { fact }) => Ok(Err(CertificateFault::Missing { fact })),
        Err(CertFault::Memory) => Err(Memory),
    }
}
