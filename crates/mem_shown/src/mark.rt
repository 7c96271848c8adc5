// Marks of loads and ends of calls that fail.

ghost use Rattle.std.specs.Prelude.{List, MatchOption, Bool};
ghost use Rattle.c_syntax.specs.Types.{ObjectTree};
ghost use Rattle.c_syntax.specs.Operand.{Operand, operand_of};
ghost use Rattle.c_syntax.specs.Admission.{IsInShown, FailsKind};
ghost use Rattle.c_syntax.specs.declared.alarm.Check.{Check};
ghost use Rattle.c_syntax.specs.declared.alarm.Shown.TheVariants.{Marks, Ends};

use c_syntax::{Example, WrongKind};

// The mark that fails a check of this kind, where it is shown.
pub fn failing_mark(kind: WrongKind, undef: bool, broken: bool) -> Option<Example>
    ensures { (objects : List ObjectTree) (check : Check) (value : Bool)
        → MatchOption result ((x : Operand) → IsInShown objects x (Marks undef value broken) → FailsKind objects check kind x → ⊥)
        (λ e. IsInShown objects (operand_of e) (Marks undef value broken) × FailsKind objects check kind (operand_of e)) }
{
    match kind {
        WrongKind::Indeterminate => if undef { Some(Example::Undef) } else { None },
        WrongKind::Fragment => if broken { Some(Example::Broken) } else { None },
        _ => None,
    }
}

// The end that fails a check of this kind, where it is shown.
pub fn failing_end(kind: WrongKind, none: bool) -> Option<Example>
    ensures { (objects : List ObjectTree) (check : Check) (value : Bool)
        → MatchOption result ((x : Operand) → IsInShown objects x (Ends value none) → FailsKind objects check kind x → ⊥)
        (λ e. IsInShown objects (operand_of e) (Ends value none) × FailsKind objects check kind (operand_of e)) }
{
    match kind {
        WrongKind::NoValue => if none { Some(Example::Nothing) } else { None },
        _ => None,
    }
}
