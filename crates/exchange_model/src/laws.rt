// What the numbering of the cells and the opening store mean, said by clauses.
ghost use Rattle.std.specs.Prelude.{◌≡◌, ℕ, ◌<◌, true, List, length, slice_get, Some};
ghost use Rattle.exchange_model.specs.Cells.{IsCell, Placed, cell_count, cell_number, field_cell};
ghost use Rattle.exchange_model.specs.Cells.{mark_cell, placed_files, variable_cell};
ghost use Rattle.exchange_model.specs.Opening.{opening_store};
ghost use Rattle.exchange_model.specs.declared.block.Block.{Block};
ghost use Rattle.exchange_model.specs.declared.block.Variable.{Variable};
ghost use Rattle.exchange_model.specs.declared.entry.Cell.{Cell};

/// A cell's number is below the number of cells, each such number is that of a cell, and of one
/// alone.
pub fn cells_are_numbered()
    ensures below { (blocks : List Block) (c : Cell) → IsCell blocks c
        → cell_number blocks c < cell_count blocks }
    ensures each { (blocks : List Block) (n : ℕ) → n < cell_count blocks
        → (c : Cell) × IsCell blocks c × (cell_number blocks c ≡ n) }
    ensures once { (blocks : List Block) (c d : Cell) → IsCell blocks c → IsCell blocks d
        → cell_number blocks c ≡ cell_number blocks d → c ≡ d }
{}

/// The opening store has one value for each cell: a variable or a field its INIT value, and a mark
/// 0.
pub fn opening_has_each_cell()
    ensures each { (blocks : List Block) → length (opening_store blocks) ≡ cell_count blocks }
    ensures variable { (blocks : List Block) (b i : ℕ) (k : Block) (v : Variable)
        → slice_get blocks b ≡ Some k → slice_get k.variables i ≡ Some v
        → slice_get (opening_store blocks) (variable_cell blocks b i) ≡ Some v.init }
    ensures field { (blocks : List Block) (f n x : ℕ) (p : Placed) (v : Variable)
        → slice_get (placed_files blocks) f ≡ Some p → n < p.file.size
        → slice_get p.file.fields x ≡ Some v
        → slice_get (opening_store blocks) (field_cell p n x) ≡ Some v.init }
    ensures mark { (blocks : List Block) (f n : ℕ) (p : Placed)
        → slice_get (placed_files blocks) f ≡ Some p → n < p.file.size → p.file.forlopp ≡ true
        → slice_get (opening_store blocks) (mark_cell p n) ≡ Some 0 }
{}
