// Lists of few items.
ghost use Rattle.std.specs.Prelude.{◌≡◌, ◌++◌, ◌∷◌, [], length, IfOk, MatchResult};

use crate::boxed::Boxed;
use plex_num::{Memory, Seq};
use std::alloc::Global;
use std::marker::Model;

/// A list that mostly is empty, and then takes no memory but its own two words; contracts see it as
/// a list of its items.
pub struct Few<T> {
    items: Option<Boxed<Seq<T>>>,
}

impl<T: Drop> Drop for Few<T> {
    fn drop(self) {
        let Few { items: _ } = self;
    }
}

impl<T> Model for Few<T> {
    ghost use Rattle.std.specs.Prelude.{List};
    ghost use Rattle.std.specs.Coded.{coded_list};
    ghost use Rattle.plex_ast.specs.Few.{items_of};

    ghost Value = { List T };

    ghost coded = { coded_list T.code };

    ghost view = { λ f. items_of f.items };
}

impl<T> Few<T> {
    /// The items, in their order.
    pub fn as_slice(&self) -> &[T]
        ensures { result.now ≡ self.now }
    {
        match &self.items {
            None => &[],
            Some(items) => items.get().as_slice(),
        }
    }

    /// How many items there are.
    pub fn len(&self) -> usize
        ensures { result ≡ length self.now }
    {
        self.as_slice().len()
    }
}

impl<T: Drop> Few<T> {
    /// The list of these items, in their order, or no memory.
    pub fn from_seq(alloc: Global, items: Seq<T>) -> Result<Few<T>, Memory>
        ensures { IfOk result (λ f. f ≡ items) }
    {
        if items.len() == 0 {
            return Ok(Few { items: None });
        }
        let items = Boxed::new(alloc, items)?;
        Ok(Few { items: Some(items) })
    }
}

/// Appends an item as `push` does, but the first one takes room for itself alone: most lists of an
/// expression, and of what a statement holds, have one.
pub fn push_few<T: Drop>(alloc: Global, list: &mut Seq<T>, item: T) -> Result<(), Memory>
    ensures { MatchResult result (λ _. list.new ≡ list.old ++ item ∷ [])
        (λ _. list.new ≡ list.old) }
{
    if list.len() > 0 {
        return list.push(item);
    }
    let Ok(mut first) = Vec::with_capacity(alloc, 1) else {
        return Err(Memory);
    };
    if first.push(item).is_err() {
        return Err(Memory);
    }
    *list = Seq::from_vec(first);
    Ok(())
}
