// The text of a tree.
use plex_ast::{KeptName, Named, Numbered, Shape, ShapeKind, Signal, Tree};
use plex_num::{Name, Seq};
use plex_print::print_tree;
use std::test::Fail;

#[test]
fn prints_a_signal(rt: HostRuntime) -> Result<(), Fail> {
    let mut name = Name::new();
    name.push(b'S');
    let name = KeptName::new(rt.alloc(), name)?;
    let mut signals = Seq::new(rt.alloc());
    signals.push(Signal {
        line: 1,
        name: Named { line: 1, name },
        shape: Shape {
            line: 1,
            kind: ShapeKind::Outside {
                data: Numbered { line: 1, value: 8 },
            },
        },
    })?;
    let tree = Tree {
        line: 1,
        signals,
        blocks: Seq::new(rt.alloc()),
    };
    let text = print_tree(rt.alloc(), &tree)?;
    assert_eq!(rt; text.as_slice(), b"SIGNAL S OUTSIDE DATA 8 ;\n".as_slice());
    Ok(())
}
