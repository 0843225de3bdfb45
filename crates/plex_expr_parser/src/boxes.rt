// Values in boxes, and lists of few items.
ghost use Rattle.token_grammar.specs.Gives.{IsGiven};

use plex_ast::{Boxed, Few};
use plex_num::Seq;
use std::alloc::Global;
use token_grammar::Fault;

/// The value in a box.
pub fn boxed<T: Drop>(alloc: Global, value: T) -> Result<Boxed<T>, Fault>
    ensures { IsGiven value result }
{
    match Boxed::new(alloc, value) {
        Ok(place) => Ok(place),
        Err(_) => Err(Fault::Memory),
    }
}

/// These items as a list that mostly is empty.
pub fn few<T: Drop>(alloc: Global, items: Seq<T>) -> Result<Few<T>, Fault>
    ensures { IsGiven items result }
{
    match Few::from_seq(alloc, items) {
        Ok(list) => Ok(list),
        Err(_) => Err(Fault::Memory),
    }
}
