// What names are told, said by clauses.
ghost use Rattle.std.specs.Prelude.{◌≡◌, ℕ, Some, slice_get};
ghost use Rattle.exchange_model.specs.declared.block.Block.{Block};
ghost use Rattle.exchange_model.specs.declared.block.Variable.{Variable};
ghost use Rattle.exchange_model.specs.declared.exchange.Exchange.{Exchange};
ghost use Rattle.exchange_model.specs.Cells.{Placed};
ghost use Rattle.source_meaning.specs.Config.{files_of};
ghost use Rattle.entry_summary.specs.Numbers.{field_number, variable_number};
ghost use Rattle.analysis_text.specs.Names.{name_at, names_of, own_name};
ghost use Rattle.exchange_model.specs.Names.{name_of_block};

/// Variables, fields and files are told by the names that they have in the text: what stands by its
/// number through the exchange in a list of names is `B.NAME` of its block and of itself.
pub fn names_stand_by_their_numbers()
    ensures variables { (x : Exchange) (b v : ℕ) (k : Block) (d : Variable)
        → slice_get x.blocks b ≡ Some k → slice_get k.variables v ≡ Some d
        → name_at (names_of x.blocks).variables (variable_number x b v) ≡ own_name k.name d.name }
    ensures files { (x : Exchange) (n : ℕ) (p : Placed)
        → slice_get (files_of x) n ≡ Some p
        → name_at (names_of x.blocks).files n ≡ own_name (name_of_block x.blocks p.block)
        p.file.name }
    ensures fields { (x : Exchange) (n i : ℕ) (p : Placed) (d : Variable)
        → slice_get (files_of x) n ≡ Some p → slice_get p.file.fields i ≡ Some d
        → name_at (names_of x.blocks).fields (field_number x n i)
        ≡ own_name (name_of_block x.blocks p.block) d.name }
{}
