// Lists of points, one for each answer.
ghost use Rattle.std.specs.Prelude.{◌≡◌, [], replicate, IfOk, OnOk};
ghost use Rattle.flow_table.specs.PointLists.{listed_at, put};

use plex_num::{Memory, Seq};
use std::alloc::Global;

/// So many empty lists.
#[tactic(auto, using(crate::proofs::Pointing::items_more, crate::proofs::Pointing::items_end))]
pub fn empty_lists(alloc: Global, count: usize) -> Result<Seq<Seq<u32>>, Memory>
    ensures { IfOk result (λ lists. lists ≡ replicate count []) }
{
    let mut lists = Seq::with_capacity(alloc, count)?;
    for _ in 0..count {
        lists.push(Seq::new(alloc))?;
    }
    Ok(lists)
}

/// Appends a point to the list of this answer, if there is one and there are so many lists.
pub fn push_listed(answer: Option<u32>, point: u32, lists: &mut Vec<Seq<u32>>) -> Result<(), Memory>
    ensures { OnOk result (lists.new.items ≡ listed_at answer point lists.old.items) }
{
    match answer {
        Some(answer) => push_at(lists, answer as usize, point),
        None => Ok(()),
    }
}

/// Appends a point to one of these lists, if there are so many.
#[tactic(auto, using(crate::proofs::Pointing::put_past, crate::proofs::Pointing::put_at))]
fn push_at(lists: &mut Vec<Seq<u32>>, i: usize, point: u32) -> Result<(), Memory>
    ensures { OnOk result (lists.new.items ≡ put i point lists.old.items) }
{
    if i >= lists.len() {
        return Ok(());
    }
    lists[i].push(point)?;
    Ok(())
}
