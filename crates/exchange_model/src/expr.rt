ghost use Rattle.std.specs.Prelude.{◌≡◌};
ghost use Rattle.exchange_model.specs.Relations.{stands};

use plex_num::Seq;

/// A sum of terms, from left to right. In an exchange no list in it is empty, and its first term
/// has no minus.
#[derive(Drop)]
#[cycle(expr)]
pub struct Expr {
    pub terms: Seq<Term>,
}

/// A product of factors, from left to right, which is added to what stands before it or taken from
/// it.
#[derive(Drop)]
#[cycle(expr)]
pub struct Term {
    pub minus: bool,
    pub factors: Seq<Joined>,
}

/// A factor, and how it is joined to those before it. In an exchange the first of a term has
/// `Times`.
#[derive(Drop)]
#[cycle(expr)]
pub struct Joined {
    pub by: FactorOp,
    pub factor: Factor,
}

/// How a factor is joined to the product before it.
#[derive(Clone, Copy, PartialEq, Eq)]
pub enum FactorOp {
    Times,
    Divide,
    Modulo,
}

/// What stands alone in an expression, or in brackets.
#[derive(Drop)]
#[cycle(expr)]
pub enum Factor {
    Number(u32),
    /// A variable, by its place in the list of its block.
    Variable(u32),
    /// A temporary, by its place in the list of its block.
    Temporary(u8),
    /// A field of a file, which its number through the exchange tells, of the record whose number
    /// the temporary `pointer` has. The field is a place in the list of its file.
    Field { file: u32, field: u32, pointer: u8 },
    Bracket(Expr),
    /// 1 plus the number of a block, which is counted from 0 through the exchange.
    Reference(u32),
}

/// A condition: it holds where all relations of one of the lists hold. In an exchange no list in it
/// is empty.
pub struct Cond {
    pub any: Seq<Seq<Relation>>,
}

impl Drop for Cond {
    fn drop(self) {
        let Cond { any: _ } = self;
    }
}

/// Two expressions, and how the first must stand to the second.
pub struct Relation {
    pub left: Expr,
    pub rel: Rel,
    pub right: Expr,
}

impl Drop for Relation {
    fn drop(self) {
        let Relation {
            left: _,
            rel: _,
            right: _,
        } = self;
    }
}

/// How one number stands to another.
#[derive(Clone, Copy, PartialEq, Eq)]
pub enum Rel {
    Equal,
    Unequal,
    Below,
    AtMost,
    Above,
    AtLeast,
}

impl Rel {
    /// Whether the first number stands so to the second.
    pub fn holds(self, first: u32, second: u32) -> bool
        ensures { result ≡ stands self first second }
    {
        match self {
            Rel::Equal => first == second,
            Rel::Unequal => first != second,
            Rel::Below => first < second,
            Rel::AtMost => first <= second,
            Rel::Above => first > second,
            Rel::AtLeast => first >= second,
        }
    }
}
