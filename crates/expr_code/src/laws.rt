// What the code of expressions and conditions does, said by clauses.
ghost use Rattle.std.specs.Prelude.{◌≡◌, ℕ, ◌+◌, ◌*◌, ◌<◌, ◌≤◌, List, length};
ghost use Rattle.std.specs.List.{AllByRecursion};
ghost use Rattle.machine_code.specs.declared.op.Op.{Op};
ghost use Rattle.machine_code.specs.Operands.{OpFits};
ghost use Rattle.exchange_model.specs.declared.expr.Expr.{Expr};
ghost use Rattle.exchange_model.specs.declared.expr.Cond.{Cond};
ghost use Rattle.exchange_model.specs.Inside.{bracket_depth, cond_exprs};
ghost use Rattle.exchange_model.specs.Fits.{Scope, ExprFits, ExprsFit};
ghost use Rattle.source_meaning.specs.Value.{Sight, expr_value, cond_value};
ghost use Rattle.machine_meaning.specs.Machine.{Machine};
ghost use Rattle.expr_code.specs.Code.{Site as Place, expr_code, cond_code};
ghost use Rattle.expr_code.specs.Runs.{HasAt, site_of, Agrees, Computes};
ghost use Rattle.expr_code.specs.Sites.{IsLimited, IsSite};

/// From a machine that has what an expression or a condition sees, and stands at its code, the run
/// comes to the end of the code with its value in the register, or stops at its fault, and has made
/// its loads and no others. Code of an expression keeps all locals and the registers below its own,
/// and code of a condition the locals below 48.
pub fn code_computes_its_value()
    ensures expr { (code : List Op) (s : Sight) (scope : Scope) (e : Expr) (m : Machine) (pc r : ℕ)
        → IsLimited scope → ExprFits scope e → r + (2 * bracket_depth e + 2) < 16
        → Agrees m s → m.run.pc ≡ pc → HasAt code pc (expr_code e (site_of s) r)
        → Computes code m (pc + length (expr_code e (site_of s) r)) r 50 (expr_value e s) }
    ensures cond { (code : List Op) (s : Sight) (scope : Scope) (c : Cond) (m : Machine) (pc : ℕ)
        → IsLimited scope → ExprsFit scope (cond_exprs c)
        → Agrees m s → m.run.pc ≡ pc → HasAt code pc (cond_code c (site_of s))
        → Computes code m (pc + length (cond_code c (site_of s))) 0 48 (cond_value c s) }
{}

/// Each operand of the code is in the range of its instruction.
pub fn operands_are_in_range()
    ensures expr { (scope : Scope) (site : Place) (e : Expr) (r : ℕ)
        → IsSite scope site → ExprFits scope e → r + (2 * bracket_depth e + 2) < 16
        → AllByRecursion OpFits (expr_code e site r) }
    ensures cond { (scope : Scope) (site : Place) (c : Cond)
        → IsSite scope site → ExprsFit scope (cond_exprs c)
        → AllByRecursion OpFits (cond_code c site) }
{}
