// Laws on the expressions of a typed program and their checks.

ghost use Rattle.std.specs.Prelude.{◌≡◌, ◌↔◌, ℕ, IsTrue, List, Some, true};
ghost use Rattle.c_syntax.specs.declared.alarm.Check.{Check};
ghost use Rattle.c_syntax.specs.Types.{ObjectTree};
ghost use Rattle.c_syntax.specs.Operand.{Operand};
ghost use Rattle.c_syntax.specs.Admission.{Fails};
ghost use Rattle.c_syntax.specs.Failing.{fails};
ghost use Rattle.c_syntax.specs.GivenType.{given_type};
ghost use Rattle.c_syntax.specs.TypedExpr.{TExprTree};
ghost use Rattle.c_syntax.specs.TypedParts.{texpr_type};
ghost use Rattle.c_syntax.specs.Program.{TProgramTree};
ghost use Rattle.c_layout.specs.MainFunction.{is_main, main_of};
ghost use Rattle.c_layout.specs.TypedNodes.{IsTypedExpr, Scope};
ghost use Rattle.c_layout.specs.WellTyped.{IsWellTyped};

/// Whether an operand fails a check is decided. An operand in an object that is not there fails
/// nothing.
pub fn failing_is_decided()
    ensures { (objects : List ObjectTree) (check : Check) (x : Operand) → IsTrue (fails objects check x) ↔ Fails objects check x }
{}

/// Where the value of a typed expression is wanted, the expression gives one of its own type.
pub fn wanted_values_are_given()
    ensures { (scope : Scope) (e : TExprTree) → IsTypedExpr scope true e → given_type e ≡ texpr_type e }
{}

/// In a well typed program one function at most is named main, and it is the main of plans, checks
/// and runs.
pub fn main_is_one()
    ensures { (program : TProgramTree) → IsWellTyped program → (f : ℕ) → IsTrue (is_main program f) → main_of program ≡ Some f }
{}
