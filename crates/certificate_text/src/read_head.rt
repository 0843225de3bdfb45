// The first line and the second.
ghost use Rattle.std.specs.Prelude.{List, MatchOption, ℕ};
ghost use Rattle.certificate_text.specs.Parts.{AreLast, IsShapeAt, IsVersionAt};
ghost use Rattle.certificate_text.specs.declared.certificate.Shape.{Shape};
ghost use Rattle.certificate_text.specs.declared.version.Version.{Version};

use crate::certificate::Shape;
use crate::parts::{after, numbered};
use crate::version::Version;

/// The version that the first line tells, and what follows the line.
pub fn version(text: &[u8]) -> Option<(Version, &[u8])>
    ensures { MatchOption result
        ((v : Version) (rest : List ℕ) → IsVersionAt text.now v rest → ⊥)
        (λ r. IsVersionAt text.now r.0 r.1.now) }
{
    if let Some(rest) = after(text, b"PLEX CERTIFICATE 2\n") {
        return Some((Version::Two, rest));
    }
    match after(text, b"PLEX CERTIFICATE 1\n") {
        Some(rest) => Some((Version::One, rest)),
        None => None,
    }
}

/// The shape that the second line of a version tells, and what follows the line.
pub fn shape(text: &[u8], version: Version) -> Option<(Shape, &[u8])>
    ensures { MatchOption result
        ((s : Shape) (rest : List ℕ) → IsShapeAt version text.now s rest → ⊥)
        (λ r. IsShapeAt version text.now r.0 r.1.now) }
{
    let (signals, rest) = numbered(text, b"EXCHANGE signals ", b' ')?;
    let (blocks, rest) = numbered(rest, b"blocks ", b' ')?;
    let (points, rest) = numbered(rest, b"points ", b' ')?;
    let (cells, rest) = numbered(rest, b"cells ", b' ')?;
    let (entries, references, rest) = last_counts(rest, version)?;
    let shape = Shape {
        signals,
        blocks,
        points,
        cells,
        entries,
        references,
    };
    Some((shape, rest))
}

/// The entries and the references, with which the line ends, and what follows it.
fn last_counts(text: &[u8], version: Version) -> Option<(u32, u32, &[u8])>
    ensures { MatchOption result
        ((entries references : ℕ) (rest : List ℕ)
        → AreLast version text.now entries references rest → ⊥)
        (λ r. AreLast version text.now r.0 r.1 r.2.now) }
{
    match version {
        Version::One => {
            let (entries, rest) = numbered(text, b"entries ", b'\n')?;
            Some((entries, 0, rest))
        }
        Version::Two => {
            let (entries, rest) = numbered(text, b"entries ", b' ')?;
            let (references, rest) = numbered(rest, b"references ", b'\n')?;
            Some((entries, references, rest))
        }
    }
}
