// Whether a certificate is one of an exchange.
ghost use Rattle.std.specs.Prelude.{◌≡◌, ◌↔◌, All, Contains, IfOk, IsTrue, MatchResult, map};
ghost use Rattle.flow_points.specs.Facts.{Gives};
ghost use Rattle.flow_table.specs.Rows.{IsFlowTable};
ghost use Rattle.flow_table.specs.Texts.{ArePlaces, seen};
ghost use Rattle.certificate_faults.specs.Missing.{LeastIn};
ghost use Rattle.checked.specs.Belonging.{IsOfExchange};
ghost use Rattle.certificate_faults.specs.Strange.{AreListed};
ghost use Rattle.checked.specs.Kept.{AreSummariesBy};
ghost use Rattle.certificate_meaning.specs.Verdicts.{Accepts, Refuses};

use access_summary::summary_of;
use certificate::shape_of;
use certificate_faults::{first_strange, least_missing};
use certificate_meaning::CertFault;
use certificate_text::{Certificate, Shape};
use checked::Checked;
use entry_accesses::numbers_of;
use exchange_model::Exchange;
use fact_list::{FactList, in_order};
use flow_points::Fact;
use flow_table::{FlowTable, PlaceAt, places_of, table_of};
use kept_summaries::Summaries;
use plex_num::Memory;
use std::alloc::Global;

/// What a certificate says of the entries, where it is one of the exchange; else why it is none.
/// Its facts may stand in any order, and more than once. A certificate that is refused is given up.
#[tactic(auto, using(crate::proofs::Checking::listed_by))]
pub fn check(
    alloc: Global,
    exchange: &Exchange,
    certificate: Certificate,
) -> Result<Checked, CertFault>
    ensures { MatchResult result
        (Accepts exchange.now certificate)
        (Refuses exchange.now certificate) }
{
    exchange.kept();
    let Certificate { shape, facts } = certificate;
    let own = shape_of(exchange);
    if !is_same(own, shape) {
        return Err(CertFault::WrongExchange {
            exchange: own,
            certificate: shape,
        });
    }
    let places = places_of(alloc, exchange)?;
    let table = table_of(alloc, exchange)?;
    if let Some(fact) = first_strange(exchange, &table, facts.as_slice()) {
        return Err(CertFault::StrangeFact { fact });
    }
    let known = FactList::new(alloc, in_order(facts))?;
    if let Some(fact) = missing_from(alloc, exchange, &table, &known)? {
        return Err(CertFault::MissingFact { fact });
    }
    let summaries = summaries_by(alloc, exchange, &table, places.as_slice(), &known)?;
    Ok(Checked::new(summaries))
}

fn is_same(one: Shape, other: Shape) -> bool
    ensures { IsTrue result ↔ (one ≡ other) }
{
    one == other
}

/// The least fact that one rule gives from these facts and that is not among them; `None` exactly
/// where they are closed.
fn missing_from(
    alloc: Global,
    exchange: &Exchange,
    table: &FlowTable,
    known: &FactList,
) -> Result<Option<Fact>, Memory>
    requires table { IsFlowTable exchange.now table.now }
    requires listed { AreListed exchange.now }
    requires fit { All (IsOfExchange exchange.now) known.now }
    ensures { IfOk result (LeastIn (Contains known.now) (Gives exchange.now (Contains known.now))) }
{
    let facts = known.facts().as_slice();
    let missing = least_missing(alloc, exchange, table, known, facts)?;
    Ok(missing)
}

/// The summary of each entry, by these facts.
#[tactic(auto, using(crate::proofs::Summing::summaries_begin, crate::proofs::Summing::summaries_end))]
fn summaries_by(
    alloc: Global,
    exchange: &Exchange,
    table: &FlowTable,
    places: &[PlaceAt<'_>],
    known: &FactList,
) -> Result<Summaries, Memory>
    requires table { IsFlowTable exchange.now table.now }
    requires places { ArePlaces exchange.now (map seen places.now) }
    ensures { IfOk result (AreSummariesBy exchange.now (Contains known.now)) }
{
    exchange.kept();
    let numbers = numbers_of(alloc, exchange)?;
    let mut summaries = Summaries::new(alloc);
    for entry in 0..exchange.entries.len() {
        let one = summary_of(
            alloc,
            exchange,
            table,
            places,
            &numbers,
            known,
            entry as u32,
        )?;
        summaries.push(one)?;
    }
    Ok(summaries)
}
