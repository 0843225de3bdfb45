// Where answers are retrieved, and from where they return.
ghost use Rattle.std.specs.Prelude.{◌≡◌, map, IfOk, OnOk};
ghost use Rattle.exchange_model.specs.declared.stmt.StmtKind.{out-StmtKind};
ghost use Rattle.flow_table.specs.PointLists.{ArePointLists, answer_by, listed_at, retrieved_by};
ghost use Rattle.flow_table.specs.Texts.{ArePlaces, seen};
ghost use Rattle.answer_table.specs.Answers.{AreAnswers, awaited_at, is_answer, returned};

use exchange_model::{Exchange, StmtKind};
use flow_points::Passing;
use flow_table::{PlaceAt, awaited_of, empty_lists, places_of, push_listed};
use plex_num::{Memory, Seq};
use std::alloc::Global;

/// For each point the answer that its statement awaits, if it is a RETRIEVE; and for each signal
/// the points of the RETURNs that give it as an answer.
pub struct AnswerTable {
    pub awaited: Seq<Option<u32>>,
    pub returns: Seq<Seq<u32>>,
}

impl Drop for AnswerTable {
    fn drop(self) {
        let AnswerTable {
            awaited: _,
            returns: _,
        } = self;
    }
}

/// The answers of an exchange, which are listed once.
pub fn answers_of(alloc: Global, exchange: &Exchange) -> Result<AnswerTable, Memory>
    ensures { IfOk result (AreAnswers exchange.now) }
{
    let places = places_of(alloc, exchange)?;
    let awaited = awaited_at(alloc, places.as_slice())?;
    let returns = returns_of(alloc, exchange, places.as_slice())?;
    Ok(AnswerTable { awaited, returns })
}

/// The answers that these statements await.
fn awaited_at(alloc: Global, places: &[PlaceAt<'_>]) -> Result<Seq<Option<u32>>, Memory>
    ensures { IfOk result (λ awaited. awaited ≡ map (answer_by retrieved_by) places.now) }
{
    let mut awaited = Seq::with_capacity(alloc, places.len())?;
    for at in places {
        awaited.push(awaited_of(at.kind))?;
    }
    Ok(awaited)
}

/// The answer that a statement returns, if it is a RETURN.
fn returned_by(kind: &StmtKind) -> Option<u32>
    ensures { result ≡ returned (out-StmtKind kind.now) }
{
    match kind {
        StmtKind::Return { answer, .. } => Some(*answer),
        _ => None,
    }
}

/// The points of the RETURNs of each signal, among these places of an exchange.
fn returns_of(
    alloc: Global,
    exchange: &Exchange,
    places: &[PlaceAt<'_>],
) -> Result<Seq<Seq<u32>>, Memory>
    requires { ArePlaces exchange.now (map seen places.now) }
    ensures { IfOk result (ArePointLists returned exchange.now) }
{
    exchange.kept();
    let count = exchange.signals.len();
    let lists = empty_lists(alloc, count)?;
    let mut returns = lists.into_vec();
    for at in places {
        push_return(at, &mut returns)?;
    }
    Ok(Seq::from_vec(returns))
}

/// Appends the point of a statement to the list of the answer that it returns, if it is a RETURN.
fn push_return(at: &PlaceAt<'_>, returns: &mut Vec<Seq<u32>>) -> Result<(), Memory>
    ensures { OnOk result (returns.new.items
        ≡ listed_at (returned (out-StmtKind at.now.kind.now)) at.now.point returns.old.items) }
{
    push_listed(returned_by(at.kind), at.point, returns)
}

/// The answer that the statement at a point awaits, if it is a RETRIEVE.
#[tactic(auto, using(crate::proofs::Answering::known_some, crate::proofs::Answering::known_none))]
pub fn awaited_in(answers: &AnswerTable, point: u32) -> Option<u32>
    ensures { result ≡ awaited_at answers.now point }
{
    match answers.awaited.get(point as usize) {
        Some(awaited) => *awaited,
        None => None,
    }
}

/// Whether an answer is given.
pub fn gives_answer(how: &Passing) -> bool
    ensures { result ≡ is_answer how.now }
{
    match how {
        Passing::Answers { .. } => true,
        _ => false,
    }
}
