// Where a text breaks no rule, it means an exchange.
ghost use Rattle.std.specs.Prelude.{◌≡◌, ◌≤◌, ℕ, List, Some, length, true};
ghost use Rattle.exchange_model.specs.Kept.{IsExchange};
ghost use Rattle.exchange_model.specs.declared.signal.SignalKind.{SignalKind as ASignal};
ghost use Rattle.plex_ast.specs.Grammar.{tree};
ghost use Rattle.plex_ast.specs.declared.block.Block.{Block as ABlock};
ghost use Rattle.plex_ast.specs.declared.tree.Tree.{Tree as ATree};
ghost use Rattle.plex_lexer.specs.declared.token.Token.{Token};
ghost use Rattle.resolved_block.specs.Texts.{choices_in, exchange_of_tree};
ghost use Rattle.text_soundness.specs.Fine.{IsFineBlock, IsFineTree, text_of};
ghost use Rattle.text_soundness.specs.Served.{SaidOf};

/// What a block says is so by what the names of the whole block stand for.
pub fn fine_blocks_are_served()
    ensures { (signals : List ASignal) (blocks : List ABlock) (b : ABlock)
        → IsFineBlock signals blocks b → SaidOf signals blocks b }
{}

/// The choices of the CASEs of a text are no more than its tokens.
pub fn choices_are_spelled()
    ensures { (t : ATree) (w : List Token) → tree true 6 12 t w
        → choices_in (exchange_of_tree t) ≤ length w }
{}

/// A text that breaks no rule means an exchange.
pub fn fine_texts_are_exchanges()
    ensures { (t : ATree) → IsFineTree t → IsExchange (exchange_of_tree t) }
{}
