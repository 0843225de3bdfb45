// The text of the certificate of an exchange.
ghost use Rattle.std.specs.Prelude.{◌≡◌, ◌++◌, IfOk, OnOk};
ghost use Rattle.flow_table.specs.Rows.{IsFlowTable};
ghost use Rattle.fact_rows.specs.Known.{ArePointsOf, Knows, KnowsAt};
ghost use Rattle.least_facts.specs.Least.{IsFor};
ghost use Rattle.certificate_text.specs.Text.{facts_text, last_text};
ghost use Rattle.certificate_meaning.specs.Certified.{IsTextOfCertificate};
ghost use Rattle.certificate.specs.Entries.{AddsLines, LeastOf};

use crate::shape::shape_of;
use certificate_text::{print_end, print_facts, print_head};
use exchange_model::Exchange;
use fact_rows::{FactRows, PointFacts};
use flow_points::Fact;
use flow_table::{FlowTable, table_of};
use least_facts::Analyser;
use plex_num::{Memory, Seq};
use std::alloc::Global;
use text_parts::Text;

/// How many lines are written at once: so few that the end of a text has room for them.
const AT_ONCE: usize = 16;

/// The text of the certificate of an exchange, which is written entry by entry and point by point:
/// the facts of one point alone are listed beside it. Memory is the only reason for an error.
pub fn text_of_certificate(alloc: Global, exchange: &Exchange) -> Result<Text, Memory>
    ensures { IfOk result (IsTextOfCertificate exchange.now) }
{
    exchange.kept();
    let shape = shape_of(exchange);
    let table = table_of(alloc, exchange)?;
    let mut analyser = Analyser::new(alloc, exchange, &table)?;
    let mut head = Seq::new(alloc);
    print_head(&mut head, shape)?;
    let mut text = Text::whole(alloc, head);
    for entry in 0..shape.entries {
        add_entry(&mut text, alloc, exchange, &table, &mut analyser, entry)?;
    }
    add_end(&mut text)?;
    Ok(text)
}

/// Appends the lines of the least facts of an entry.
fn add_entry(
    text: &mut Text,
    alloc: Global,
    exchange: &Exchange,
    table: &FlowTable,
    analyser: &mut Analyser,
    entry: u32,
) -> Result<(), Memory>
    requires table { IsFlowTable exchange.now table.now }
    requires own { IsFor exchange.now table.now analyser.old }
    ensures added { OnOk result (AddsLines (LeastOf exchange.now entry) text.old text.new) }
    ensures own { OnOk result (IsFor exchange.now table.now analyser.new) }
{
    analyser.learn(alloc, exchange, table, entry, None)?;
    add_known(text, alloc, analyser.known())?;
    Ok(())
}

/// Appends the lines of all facts that rows know.
fn add_known(text: &mut Text, alloc: Global, known: &FactRows) -> Result<(), Memory>
    ensures { OnOk result (AddsLines (Knows known.now) text.old text.new) }
{
    let points = known.points(alloc)?;
    add_points(text, alloc, known, &points)?;
    Ok(())
}

/// Appends the lines of the same facts, of which these are the points, one point after the other.
fn add_points(
    text: &mut Text,
    alloc: Global,
    known: &FactRows,
    points: &[u32],
) -> Result<(), Memory>
    requires { ArePointsOf (Knows known.now) points.now }
    ensures { OnOk result (AddsLines (Knows known.now) text.old text.new) }
{
    let mut list = PointFacts::new(alloc);
    for point in points {
        add_point(text, known, *point, &mut list)?;
    }
    Ok(())
}

/// Appends the lines of those at a point, which are listed in the place of others.
#[tactic(auto, using(crate::proofs::Pointing::point_added))]
fn add_point(
    text: &mut Text,
    known: &FactRows,
    point: u32,
    list: &mut PointFacts,
) -> Result<(), Memory>
    ensures { OnOk result (AddsLines (KnowsAt known.now point) text.old text.new) }
{
    known.list_at(point, list)?;
    add_facts(text, &list.facts)?;
    Ok(())
}

/// Appends the lines of facts, some at a time.
#[tactic(auto, using(crate::proofs::Pointing::some_added))]
fn add_facts(text: &mut Text, facts: &[Fact]) -> Result<(), Memory>
    ensures { OnOk result (text.new ≡ text.old ++ facts_text facts.now) }
{
    let mut rest = facts;
    while rest.len() > AT_ONCE {
        let (some, later) = rest.split_at(AT_ONCE);
        add_some(text, some)?;
        rest = later;
    }
    add_some(text, rest)?;
    Ok(())
}

/// Appends the lines of some facts at once.
#[tactic(auto, using(text_parts::proofs::Joined::put_back))]
fn add_some(text: &mut Text, facts: &[Fact]) -> Result<(), Memory>
    ensures { OnOk result (text.new ≡ text.old ++ facts_text facts.now) }
{
    let mut end = text.take_end();
    print_facts(&mut end, facts)?;
    text.put(end)?;
    Ok(())
}

/// Appends the last line, behind all facts.
#[tactic(auto, using(text_parts::proofs::Joined::put_back))]
fn add_end(text: &mut Text) -> Result<(), Memory>
    ensures { OnOk result (text.new ≡ text.old ++ last_text) }
{
    let mut end = text.take_end();
    print_end(&mut end)?;
    text.put(end)?;
    Ok(())
}
