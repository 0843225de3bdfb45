// Tables of the choices of an exchange's CASEs, made once for all its jobs.
//
// A table serves where it is known to be that of the CASE at hand. So all CASEs are found first;
// tables are made of them, by their points, and then it is looked whether each CASE finds its own.
ghost use Rattle.std.specs.Prelude.{◌≡◌, ◌∷◌, [], ℕ, List, None, IfOk, IsTrue, OnOk};
ghost use Rattle.std.specs.Option.{option_copied};
ghost use Rattle.case_lookup.specs.Tables.{IsTable};
ghost use Rattle.exchange_model.specs.declared.stmt.StmtKind.{out-StmtKind};
ghost use Rattle.source_interpreter.specs.Cases.{AreTablesOf, BlockKnown, FindsOwn, IsKnown};
ghost use Rattle.source_interpreter.specs.Cases.{LayerKnown, WhenKnown, numbers_of, table_at};
ghost use Rattle.source_interpreter.specs.Found.{AreOwn, Gathers};

use case_lookup::table_of;
use exchange_model::{Block, Exchange, Stmt, StmtKind, When};
use plex_num::{Memory, Seed, Seq};
use std::alloc::Global;
use std::collections::HashMap;

/// Of how many choices a CASE must be for its table to be of use.
const FEWEST: usize = 8;

/// The tables of the choices of CASEs, by the points of these.
pub struct Cases {
    tables: HashMap<u32, Seq<u64>, Seed>,
}

impl Drop for Cases {
    fn drop(self) {
        let Cases { tables: _ } = self;
    }
}

/// A CASE that was found: its point, and its choices.
#[derive(Clone, Copy, Drop)]
pub(crate) struct Found<'a> {
    point: u32,
    whens: &'a [When],
}

impl Cases {
    /// The tables of an exchange; `Memory` comes where memory is refused.
    #[tactic(auto, using(crate::proofs::Gathering::tables_are))]
    pub fn new(alloc: Global, exchange: &Exchange) -> Result<Cases, Memory>
        ensures { IfOk result (λ cases. AreTablesOf cases exchange.now.blocks) }
    {
        let found = found_in(alloc, exchange.blocks.as_slice())?;
        let cases = Cases::of(alloc, found.as_slice())?;
        Ok(cases)
    }

    /// The table of the CASE at a point, where one is held.
    pub(crate) fn table(&self, point: u32) -> Option<&[u64]>
        ensures { option_copied result ≡ table_at self.now point }
    {
        match self.tables.get(&point) {
            Some(keys) => Some(keys.as_slice()),
            None => None,
        }
    }

    /// The tables of these CASEs; none where two have one point.
    #[tactic(auto, using(crate::proofs::Gathering::none_own))]
    fn of(alloc: Global, found: &[Found<'_>]) -> Result<Cases, Memory>
        ensures { IfOk result (λ cases. AreOwn cases found.now) }
    {
        let cases = Cases::held(alloc, found)?;
        if cases.are_own(alloc, found)? {
            Ok(cases)
        } else {
            Ok(Cases::none(alloc, Seed::new()))
        }
    }

    /// No tables.
    fn none(alloc: Global, seed: Seed) -> Cases
        ensures { (point : ℕ) → table_at result point ≡ None }
    {
        Cases {
            tables: HashMap::with_hasher(alloc, seed),
        }
    }

    // A table for each of these CASEs that has choices enough.
    fn held(alloc: Global, found: &[Found<'_>]) -> Result<Cases, Memory> {
        let mut seed = Seed::new();
        for case in found {
            seed = seed.with_number(case.point);
        }
        let mut cases = Cases::none(alloc, seed);
        for case in found {
            if case.whens.len() >= FEWEST {
                let keys = keys_of(alloc, case.whens)?;
                cases.hold(case.point, keys)?;
            }
        }
        Ok(cases)
    }

    fn hold(&mut self, point: u32, keys: Seq<u64>) -> Result<(), Memory> {
        match self.tables.insert(point, keys) {
            Ok(_) => Ok(()),
            Err(_) => Err(Memory),
        }
    }

    // Whether each table that these CASEs find is their own.
    #[tactic(auto, using(crate::proofs::Gathering::own_begin, crate::proofs::Gathering::own_more, crate::proofs::Gathering::own_end))]
    fn are_own(&self, alloc: Global, found: &[Found<'_>]) -> Result<bool, Memory>
        ensures { IfOk result (λ own. IsTrue own → AreOwn self.now found.now) }
    {
        for case in found {
            if !self.is_own(alloc, case.point, case.whens)? {
                return Ok(false);
            }
        }
        Ok(true)
    }

    // Whether the table that is held for a point, if one is, is that of these choices.
    #[tactic(auto, using(crate::proofs::Gathering::own_none, crate::proofs::Gathering::own_some))]
    fn is_own(&self, alloc: Global, point: u32, whens: &[When]) -> Result<bool, Memory>
        ensures { IfOk result (λ own. IsTrue own → FindsOwn self.now point whens.now) }
    {
        match self.table(point) {
            Some(held) => {
                let keys = keys_of(alloc, whens)?;
                Ok(are_same(keys.as_slice(), held))
            }
            None => Ok(true),
        }
    }
}

fn are_same(one: &[u64], other: &[u64]) -> bool
    ensures { IsTrue result → one.now ≡ other.now }
{
    one == other
}

// The table of the numbers of these choices.
fn keys_of(alloc: Global, whens: &[When]) -> Result<Seq<u64>, Memory>
    ensures { IfOk result (λ keys. IsTable (numbers_of whens.now) keys) }
{
    let mut numbers = Seq::new(alloc);
    for when in whens {
        numbers.push(when.number)?;
    }
    table_of(alloc, numbers.as_slice())
}

// The CASEs of these blocks.
#[tactic(auto, using(crate::proofs::Gathering::gathered_begin, crate::proofs::Gathering::gathered_end))]
fn found_in<'a>(alloc: Global, blocks: &'a [Block]) -> Result<Seq<Found<'a>>, Memory>
    ensures { IfOk result (λ found. Gathers BlockKnown blocks.now [] found) }
{
    let mut found = Seq::new(alloc);
    for block in blocks {
        find_in(&block.body, &mut found)?;
    }
    Ok(found)
}

// Appends the CASEs of these statements, and of all those in them.
#[cycle(find)]
#[tactic(auto, using(crate::proofs::Gathering::gathered_begin, crate::proofs::Gathering::gathered_end))]
fn find_in<'a>(statements: &'a Seq<Stmt>, found: &mut Seq<Found<'a>>) -> Result<(), Memory>
    ensures { OnOk result (Gathers IsKnown statements.now found.old found.new) }
{
    for statement in statements.as_slice() {
        find(statement.point, &statement.kind, found)?;
    }
    Ok(())
}

// Those of the lists of these choices.
#[cycle(find)]
#[tactic(auto, using(crate::proofs::Gathering::gathered_begin, crate::proofs::Gathering::gathered_end))]
fn find_in_whens<'a>(whens: &'a Seq<When>, found: &mut Seq<Found<'a>>) -> Result<(), Memory>
    ensures { OnOk result (Gathers WhenKnown whens.now found.old found.new) }
{
    for when in whens.as_slice() {
        find_in(&when.body, found)?;
    }
    Ok(())
}

// Those of a statement at a point: itself, and those in it.
#[cycle(find)]
fn find<'a>(point: u32, kind: &'a StmtKind, found: &mut Seq<Found<'a>>) -> Result<(), Memory>
    ensures { OnOk result (Gathers (λ cases l. LayerKnown cases point l)
        (out-StmtKind kind.now ∷ []) found.old found.new) }
{
    match kind {
        StmtKind::If { yes, no, .. } => {
            find_in(yes, found)?;
            find_in(no, found)?;
            Ok(())
        }
        StmtKind::Case {
            whens,
            otherwise,
            ..
        } => {
            found.push(Found {
                point,
                whens: whens.as_slice(),
            })?;
            find_in_whens(whens, found)?;
            find_in(otherwise, found)?;
            Ok(())
        }
        StmtKind::On { body, .. } => {
            find_in(body, found)?;
            Ok(())
        }
        _ => Ok(()),
    }
}
