// What stands in expressions and conditions.
ghost use Rattle.std.specs.Prelude.{◌≡◌, OnOk, map};
ghost use Rattle.text_events.specs.Note as note;
ghost use Rattle.text_events.specs.Walk.{add, each_walk, expr_walk, term_walk, factor_walk};
ghost use Rattle.text_events.specs.Walk.{factor_kind_walk, added_walk, multiplied_walk};
ghost use Rattle.text_events.specs.Walk.{relation_walk, conj_walk, cond_walk, values_walk};

use crate::pushes::{push, push_use};
use plex_ast::{
    Added, Boxed, Cond, Conj, Expr, Exprs, Factor, FactorKind, Multiplied, Named, Relation, Term,
};
use plex_num::{Memory, Seq};
use text_events::{Event, Need, PackedEvent};

// A name that is an operand.
fn push_read<'a>(
    out: &mut Seq<Event<'a>>,
    n: &'a Named,
    need: Need,
    owner: u32,
) -> Result<(), Memory>
    ensures { OnOk result (out.new ≡ add n.now.line (note.Reads n.now.name need owner) out.old) }
{
    let kept = PackedEvent::Reads {
        need,
        owner,
        name: n,
    };
    push(out, kept)?;
    Ok(())
}

// A block that is an operand.
fn push_block<'a>(out: &mut Seq<Event<'a>>, n: &'a Named, owner: u32) -> Result<(), Memory>
    ensures { OnOk result (out.new ≡ add n.now.line (note.Refers n.now.name owner) out.old) }
{
    push(out, PackedEvent::Refers { owner, block: n })?;
    Ok(())
}

/// Those of an expression of the statement `owner`.
#[cycle(exprs)]
#[tactic(auto, using(text_events::proofs::Steps::expr_opened))]
pub(crate) fn walk_expr<'a>(e: &'a Expr, owner: u32, out: &mut Seq<Event<'a>>) -> Result<(), Memory>
    ensures { OnOk result (out.new ≡ expr_walk e.now owner out.old) }
{
    walk_term(&e.first, owner, out)?;
    walk_sum(e.rest.as_slice(), owner, out)?;
    Ok(())
}

#[cycle(exprs)]
#[tactic(auto, using(text_events::proofs::Steps::walks_begin, text_events::proofs::Steps::walks_step, text_events::proofs::Steps::walks_end))]
fn walk_sum<'a>(rest: &'a [Added], owner: u32, out: &mut Seq<Event<'a>>) -> Result<(), Memory>
    ensures { OnOk result (out.new ≡ each_walk (map added_walk rest.now) owner out.old) }
{
    for a in rest {
        walk_added(a, owner, out)?;
    }
    Ok(())
}

#[cycle(exprs)]
fn walk_added<'a>(a: &'a Added, owner: u32, out: &mut Seq<Event<'a>>) -> Result<(), Memory>
    ensures { OnOk result (out.new ≡ added_walk a.now owner out.old) }
{
    match a {
        Added::Plus(t) => {
            walk_term(t, owner, out)?;
            Ok(())
        }
        Added::Minus(t) => {
            walk_term(t, owner, out)?;
            Ok(())
        }
    }
}

#[cycle(exprs)]
#[tactic(auto, using(text_events::proofs::Steps::term_opened))]
fn walk_term<'a>(t: &'a Term, owner: u32, out: &mut Seq<Event<'a>>) -> Result<(), Memory>
    ensures { OnOk result (out.new ≡ term_walk t.now owner out.old) }
{
    walk_factor(&t.first, owner, out)?;
    walk_product(t.rest.as_slice(), owner, out)?;
    Ok(())
}

#[cycle(exprs)]
#[tactic(auto, using(text_events::proofs::Steps::walks_begin, text_events::proofs::Steps::walks_step, text_events::proofs::Steps::walks_end))]
fn walk_product<'a>(
    rest: &'a [Multiplied],
    owner: u32,
    out: &mut Seq<Event<'a>>,
) -> Result<(), Memory>
    ensures { OnOk result (out.new ≡ each_walk (map multiplied_walk rest.now) owner out.old) }
{
    for m in rest {
        walk_multiplied(m, owner, out)?;
    }
    Ok(())
}

#[cycle(exprs)]
fn walk_multiplied<'a>(
    m: &'a Multiplied,
    owner: u32,
    out: &mut Seq<Event<'a>>,
) -> Result<(), Memory>
    ensures { OnOk result (out.new ≡ multiplied_walk m.now owner out.old) }
{
    match m {
        Multiplied::Times(f) => {
            walk_factor(f, owner, out)?;
            Ok(())
        }
        Multiplied::Over(f) => {
            walk_factor(f, owner, out)?;
            Ok(())
        }
        Multiplied::Mod(f) => {
            walk_factor(f, owner, out)?;
            Ok(())
        }
    }
}

#[cycle(exprs)]
#[tactic(auto, using(text_events::proofs::Steps::factor_opened))]
fn walk_factor<'a>(f: &'a Factor, owner: u32, out: &mut Seq<Event<'a>>) -> Result<(), Memory>
    ensures { OnOk result (out.new ≡ factor_walk f.now owner out.old) }
{
    walk_factor_kind(&f.kind, owner, out)?;
    Ok(())
}

#[cycle(exprs)]
fn walk_factor_kind<'a>(
    k: &'a FactorKind,
    owner: u32,
    out: &mut Seq<Event<'a>>,
) -> Result<(), Memory>
    ensures { OnOk result (out.new ≡ factor_kind_walk k.now owner out.old) }
{
    match k {
        FactorKind::Number(n) => {
            let line = n.line;
            push(out, PackedEvent::Counts { line, owner })?;
            Ok(())
        }
        FactorKind::Name(n) => {
            push_read(out, n, Need::Value, owner)?;
            Ok(())
        }
        FactorKind::Field { name, pointer } => {
            push_read(out, name.get(), Need::Field, owner)?;
            push_use(out, pointer.get(), Need::Temporary)?;
            Ok(())
        }
        FactorKind::Reference { block } => {
            push_block(out, block, owner)?;
            Ok(())
        }
        FactorKind::Bracket(e) => {
            walk_expr(e.get(), owner, out)?;
            Ok(())
        }
    }
}

fn walk_relation<'a>(r: &'a Relation, owner: u32, out: &mut Seq<Event<'a>>) -> Result<(), Memory>
    ensures { OnOk result (out.new ≡ relation_walk r.now owner out.old) }
{
    walk_expr(&r.left, owner, out)?;
    walk_expr(&r.right, owner, out)?;
    Ok(())
}

#[tactic(auto, using(text_events::proofs::Steps::walks_begin, text_events::proofs::Steps::walks_step, text_events::proofs::Steps::walks_end))]
fn walk_relations<'a>(
    rest: &'a [Relation],
    owner: u32,
    out: &mut Seq<Event<'a>>,
) -> Result<(), Memory>
    ensures { OnOk result (out.new ≡ each_walk (map relation_walk rest.now) owner out.old) }
{
    for r in rest {
        walk_relation(r, owner, out)?;
    }
    Ok(())
}

fn walk_conj<'a>(c: &'a Conj, owner: u32, out: &mut Seq<Event<'a>>) -> Result<(), Memory>
    ensures { OnOk result (out.new ≡ conj_walk c.now owner out.old) }
{
    walk_relation(&c.first, owner, out)?;
    walk_relations(c.rest.as_slice(), owner, out)?;
    Ok(())
}

#[tactic(auto, using(text_events::proofs::Steps::walks_begin, text_events::proofs::Steps::walks_step, text_events::proofs::Steps::walks_end))]
fn walk_conjs<'a>(rest: &'a [Conj], owner: u32, out: &mut Seq<Event<'a>>) -> Result<(), Memory>
    ensures { OnOk result (out.new ≡ each_walk (map conj_walk rest.now) owner out.old) }
{
    for j in rest {
        walk_conj(j, owner, out)?;
    }
    Ok(())
}

/// Those of a condition of the statement `owner`.
pub(crate) fn walk_cond<'a>(c: &'a Cond, owner: u32, out: &mut Seq<Event<'a>>) -> Result<(), Memory>
    ensures { OnOk result (out.new ≡ cond_walk c.now owner out.old) }
{
    walk_conj(&c.first, owner, out)?;
    walk_conjs(c.rest.as_slice(), owner, out)?;
    Ok(())
}

#[tactic(auto, using(text_events::proofs::Steps::walks_begin, text_events::proofs::Steps::walks_step, text_events::proofs::Steps::walks_end))]
fn walk_exprs<'a>(values: &'a [Expr], owner: u32, out: &mut Seq<Event<'a>>) -> Result<(), Memory>
    ensures { OnOk result (out.new ≡ each_walk (map expr_walk values.now) owner out.old) }
{
    for e in values {
        walk_expr(e, owner, out)?;
    }
    Ok(())
}

/// Those of the values after WITH.
pub(crate) fn walk_values<'a>(
    values: &'a Option<Boxed<Exprs>>,
    owner: u32,
    out: &mut Seq<Event<'a>>,
) -> Result<(), Memory>
    ensures { OnOk result (out.new ≡ values_walk values.now owner out.old) }
{
    match values {
        None => Ok(()),
        Some(boxed) => {
            let x = boxed.get();
            walk_expr(&x.first, owner, out)?;
            walk_exprs(x.rest.as_slice(), owner, out)?;
            Ok(())
        }
    }
}
