// What a job does with its chain.
ghost use Rattle.std.specs.Prelude.{◌≡◌, ◌<◌, ◌++◌, ◌∷◌, ◌↔◌, [], length, position, IfSome, IsTrue};
ghost use Rattle.std.specs.Prelude.{if◌then◌else◌};
ghost use Rattle.job_types.specs.Chain.{holds, is_record, without};

use job_types::{Chain, Held};
use plex_limits::MOST_HELD;

/// The chain gets a record, behind the others. False exactly where it has 64 records, and then it
/// stays as it was.
pub fn seize(chain: &mut Chain, held: Held) -> bool
    ensures room { IsTrue result ↔ (length chain.old < MOST_HELD) }
    ensures chain { chain.new ≡ (if result then chain.old ++ held ∷ [] else chain.old) }
{
    if chain.as_slice().len() >= MOST_HELD {
        return false;
    }
    chain.push(held);
    true
}

/// The record leaves the chain, and the others keep their order. False exactly where the chain
/// lacks the record.
pub fn free(chain: &mut Chain, held: Held) -> bool
    ensures held { result ≡ holds chain.old held.file held.number }
    ensures chain { chain.new ≡ without chain.old held.file held.number }
{
    match place_of(chain.as_slice(), held) {
        Some(place) => {
            let _ = chain.remove(place);
            true
        }
        None => false,
    }
}

/// Where the record stands in a chain, from 0.
fn place_of(chain: &[Held], held: Held) -> Option<usize>
    ensures place { result ≡ position (is_record held.file held.number) chain.now }
    ensures inside { IfSome result (λ i. i < length chain.now) }
{
    chain.iter().position(|other| *other == held)
}
