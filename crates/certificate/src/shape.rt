// How large an exchange is.
ghost use Rattle.certificate_meaning.specs.Shapes.{IsShapeOf};

use crate::references::references_in;
use certificate_text::Shape;
use exchange_model::Exchange;

/// The shape of an exchange. It takes no memory.
#[tactic(auto, using(crate::proofs::Counts::references_told))]
pub fn shape_of(exchange: &Exchange) -> Shape
    ensures { IsShapeOf exchange.now result }
{
    exchange.kept();
    Shape {
        signals: exchange.signals.len() as u32,
        blocks: exchange.blocks.len() as u32,
        points: exchange.points.len() as u32,
        cells: exchange.cells,
        entries: exchange.entries().len() as u32,
        references: references_in(exchange.blocks.as_slice()),
    }
}
