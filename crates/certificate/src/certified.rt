// The certificate of an exchange.
ghost use Rattle.std.specs.Prelude.{IfOk};
ghost use Rattle.certificate_meaning.specs.Certified.{IsCertificate};

use crate::shape::shape_of;
use access_summary::least_facts;
use certificate_text::Certificate;
use exchange_model::Exchange;
use plex_num::Memory;
use std::alloc::Global;

/// The certificate of an exchange, which has its least facts. Memory is the only reason for an
/// error.
#[tactic(auto, using(crate::proofs::Fitting::facts_fit))]
pub fn certificate_of(alloc: Global, exchange: &Exchange) -> Result<Certificate, Memory>
    ensures { IfOk result (IsCertificate exchange.now) }
{
    exchange.kept();
    let shape = shape_of(exchange);
    let facts = least_facts(alloc, exchange)?;
    Ok(Certificate { shape, facts })
}
