// What expressions leave of the cases around them.

ghost use Rattle.c_check_stmts.specs.CaseLaws.{ExpressionsLeaveCases};

/// The cases and the `default` behind an expression are those before it (C11 6.8.4.2).
pub fn expressions_leave_cases()
    ensures { ExpressionsLeaveCases }
{}
