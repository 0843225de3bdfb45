//! Which trees have a text, as an empty function.
ghost use Rattle.std.specs.Prelude.{◌↔◌, ℕ, List};
ghost use Rattle.plex_ast.specs.declared.tree.Tree.{Tree};
ghost use Rattle.kept_trees.specs.Keeps.{IsKept};
ghost use Rattle.plex_print.specs.Spelled.{Spells};

/// A tree has a text exactly where its names are names, its numbers have 32 bits, and it nests no
/// deeper than allowed.
pub fn kept_has_text()
    ensures { (t : Tree) → (IsKept t ↔ ((text : List ℕ) × Spells text t)) }
{}
