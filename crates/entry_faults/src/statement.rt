// Whether a statement that is reached may fault.
ghost use Rattle.std.specs.Prelude.{◌≡◌, ◌↔◌, ◌++◌, map, true, IfOk, OnOk};
ghost use Rattle.std.specs.List.{Contains, list_any};
ghost use Rattle.std.specs.Option.{option_to_list};
ghost use Rattle.exchange_model.specs.declared.stmt.StmtKind.{out-StmtKind};
ghost use Rattle.source_meaning.specs.Rests.{IsOfBlock};
ghost use Rattle.flow_table.specs.Texts.{AreReachedAmong, seen};
ghost use Rattle.entry_summary.specs.Faults.{FaultsAt, SomeFaults};
ghost use Rattle.entry_summary.specs.Faults.{may_divide_by_zero as may_divide};
ghost use Rattle.entry_faults.specs.declared.fields.Pointer.{Pointer as PointerType};
ghost use Rattle.entry_faults.specs.Exprs.{expr_seen};
ghost use Rattle.entry_faults.specs.Fields.{pointers_in};
ghost use Rattle.entry_faults.specs.Statements.{AnyMisses, FaultsHere};
ghost use Rattle.entry_faults.specs.Statements.{own_pointer as own_pointer_layer};
ghost use Rattle.entry_faults.specs.Statements.{points_at_forlopp as points_so};

use crate::asks::{
    awaits_question, depth_question, end_question, is_forlopp, is_seize, own_pointer,
    pointer_question, receiver_question, width_question,
};
use crate::divide::may_divide_by_zero;
use crate::exprs::{ExprAt, exprs_of};
use crate::fields::{Pointer, push_fields};
use crate::question::may_answer;
use exchange_model::{Exchange, StmtKind};
use flow_table::{KnownFacts, PlaceAt};
use plex_num::{Memory, Seq};
use std::alloc::Global;

/// Whether a statement that a job of the entry may reach may fault there.
#[tactic(auto, using(crate::proofs::Faulting::faults_found))]
pub fn some_faults<K: KnownFacts>(
    alloc: Global,
    exchange: &Exchange,
    places: &[PlaceAt<'_>],
    known: &K,
    entry: u32,
) -> Result<bool, Memory>
    requires { AreReachedAmong exchange.now (K.knows known.now) entry (map seen places.now) }
    ensures { IfOk result
        (λ fault. (fault ≡ true) ↔ SomeFaults exchange.now (K.knows known.now) entry) }
{
    exchange.kept();
    for at in places {
        if reaches_fault(alloc, exchange, at, known, entry)? {
            return Ok(true);
        }
    }
    Ok(false)
}

/// Whether a statement is reached and may fault.
fn reaches_fault<K: KnownFacts>(
    alloc: Global,
    exchange: &Exchange,
    at: &PlaceAt<'_>,
    known: &K,
    entry: u32,
) -> Result<bool, Memory>
    requires { IsOfBlock exchange.now at.now.block (out-StmtKind at.now.kind.now) }
    ensures { IfOk result
        (λ fault. (fault ≡ true) ↔ FaultsHere exchange.now (K.knows known.now) entry at.now) }
{
    if known.is_reached(entry, at.point) {
        return may_fault_at(alloc, exchange, at, known, entry);
    }
    Ok(false)
}

/// Whether a statement may fault, where it is reached.
fn may_fault_at<K: KnownFacts>(
    alloc: Global,
    exchange: &Exchange,
    at: &PlaceAt<'_>,
    known: &K,
    entry: u32,
) -> Result<bool, Memory>
    requires { IsOfBlock exchange.now at.now.block (out-StmtKind at.now.kind.now) }
    ensures { IfOk result (λ fault. (fault ≡ true)
        ↔ FaultsAt exchange.now (K.knows known.now) entry at.now.block at.now.point
        (out-StmtKind at.now.kind.now)) }
{
    let point = at.point;
    let exprs = exprs_of(alloc, at.kind)?;
    let expressions = exprs.as_slice();
    let pointers = pointers_of(alloc, at.kind, expressions)?;
    let pointing = pointers.as_slice();
    let seizes = is_seize(at.kind);
    let divides = any_divides(expressions);
    let forlopp = any_forlopp(exchange, pointing);
    let misses = any_misses(alloc, exchange, known, entry, point, pointers)?;
    let receiver = receiver_question(at.kind);
    let lost = may_answer(alloc, exchange, known, entry, point, receiver)?;
    let width = width_question(exchange, at.block, at.kind);
    let wide = may_answer(alloc, exchange, known, entry, point, width)?;
    let end = end_question(at.kind);
    let waits = may_answer(alloc, exchange, known, entry, point, end)?;
    let awaited = awaits_question(at.kind);
    let other = may_answer(alloc, exchange, known, entry, point, awaited)?;
    let depth = depth_question(exchange, at.kind);
    let deep = may_answer(alloc, exchange, known, entry, point, depth)?;
    Ok(seizes | divides | forlopp | misses | lost | wide | waits | other | deep)
}

/// The pointers of a statement, of which these are the expressions: those of the fields that it
/// reads, and its own.
fn pointers_of(alloc: Global, kind: &StmtKind, exprs: &[ExprAt<'_>]) -> Result<Seq<Pointer>, Memory>
    ensures { IfOk result (λ pointers. pointers ≡ pointers_in (map expr_seen exprs.now)
        ++ option_to_list (own_pointer_layer (out-StmtKind kind.now))) }
{
    let mut pointers = Seq::new(alloc);
    push_all_fields(exprs, &mut pointers)?;
    push_own(own_pointer(kind), &mut pointers)?;
    Ok(pointers)
}

fn push_all_fields(exprs: &[ExprAt<'_>], pointers: &mut Seq<Pointer>) -> Result<(), Memory>
    ensures { OnOk result
        (pointers.new ≡ pointers.old ++ pointers_in (map expr_seen exprs.now)) }
{
    for one in exprs {
        push_fields(one.expr, pointers)?;
    }
    Ok(())
}

#[tactic(auto, using(crate::proofs::Faulting::none_added))]
fn push_own(pointer: Option<Pointer>, pointers: &mut Seq<Pointer>) -> Result<(), Memory>
    ensures { OnOk result (pointers.new ≡ pointers.old ++ option_to_list pointer) }
{
    match pointer {
        Some(pointer) => {
            pointers.push(pointer)?;
            Ok(())
        }
        None => Ok(()),
    }
}

/// Whether one of these expressions may divide by 0.
fn any_divides(exprs: &[ExprAt<'_>]) -> bool
    ensures { result ≡ list_any (λ e. may_divide (expr_seen e)) exprs.now }
{
    exprs.iter().any(|one| may_divide_by_zero(one.expr))
}

/// Whether one of these pointers is to a record of a forlopp file.
fn any_forlopp(exchange: &Exchange, pointers: &[Pointer]) -> bool
    ensures { result ≡ list_any (points_so exchange.now) pointers.now }
{
    pointers
        .iter()
        .any(|pointer| is_forlopp(exchange, pointer.file))
}

/// Whether one of these pointers may lead to no record.
fn any_misses<K: KnownFacts>(
    alloc: Global,
    exchange: &Exchange,
    known: &K,
    entry: u32,
    point: u32,
    pointers: Seq<Pointer>,
) -> Result<bool, Memory>
    ensures { IfOk result (λ misses. (misses ≡ true)
        ↔ AnyMisses exchange.now (K.knows known.now) entry point pointers) }
{
    let each = each_once(pointers);
    let misses = some_miss(alloc, exchange, known, entry, point, each.as_slice())?;
    Ok(misses)
}

/// These pointers, each once.
fn each_once(pointers: Seq<Pointer>) -> Seq<Pointer>
    ensures { (p : PointerType) → Contains result p ↔ Contains pointers p }
{
    let mut each = pointers.into_vec();
    each.sort_unstable();
    each.dedup();
    Seq::from_vec(each)
}

/// Whether one of these pointers may lead to no record; each is asked about.
#[tactic(auto, using(crate::proofs::Faulting::misses_found, crate::proofs::Faulting::misses_more))]
fn some_miss<K: KnownFacts>(
    alloc: Global,
    exchange: &Exchange,
    known: &K,
    entry: u32,
    point: u32,
    pointers: &[Pointer],
) -> Result<bool, Memory>
    ensures { IfOk result (λ misses. (misses ≡ true)
        ↔ AnyMisses exchange.now (K.knows known.now) entry point pointers.now) }
{
    for pointer in pointers {
        let question = pointer_question(exchange, *pointer);
        if may_answer(alloc, exchange, known, entry, point, question)? {
            return Ok(true);
        }
    }
    Ok(false)
}
