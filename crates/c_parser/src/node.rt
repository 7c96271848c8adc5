// Statements of their parts.
#![tactic(auto, using(c_syntax_written::proofs::Trees::the_written_trees))]

ghost use Rattle.std.specs.Prelude.{◌≡◌};
ghost use Rattle.c_syntax_written.specs.WrittenFile.{Case, DoWhile, If, IfElse, Switch, While, stmt_tree};
ghost use Rattle.c_parser_steps.specs.Views.{boxed_expr};
ghost use Rattle.c_parser.specs.HeadKinds.{boxed_tree};

use c_syntax_written::{Expr, Pos, Stmt};

/// A case.
pub fn case_stmt(pos: Pos, value: Box<Expr>, body: Box<Stmt>) -> Stmt
    ensures { stmt_tree result ≡ Case pos (boxed_expr value) (boxed_tree body) }
{
    Stmt::Case { pos, value, body }
}

/// An if without an else.
pub fn if_stmt(pos: Pos, condition: Box<Expr>, then: Box<Stmt>) -> Stmt
    ensures { stmt_tree result ≡ If pos (boxed_expr condition) (boxed_tree then) }
{
    Stmt::If {
        pos,
        condition,
        then,
    }
}

/// An if with its else.
pub fn if_else_stmt(pos: Pos, condition: Box<Expr>, then: Box<Stmt>, otherwise: Box<Stmt>) -> Stmt
    ensures { stmt_tree result ≡ IfElse pos (boxed_expr condition) (boxed_tree then) (boxed_tree otherwise) }
{
    Stmt::IfElse {
        pos,
        condition,
        then,
        otherwise,
    }
}

/// A switch.
pub fn switch_stmt(pos: Pos, value: Box<Expr>, body: Box<Stmt>) -> Stmt
    ensures { stmt_tree result ≡ Switch pos (boxed_expr value) (boxed_tree body) }
{
    Stmt::Switch { pos, value, body }
}

/// A loop that begins with its condition.
pub fn while_stmt(pos: Pos, condition: Box<Expr>, body: Box<Stmt>) -> Stmt
    ensures { stmt_tree result ≡ While pos (boxed_expr condition) (boxed_tree body) }
{
    Stmt::While {
        pos,
        condition,
        body,
    }
}

/// A loop that ends with its condition.
pub fn do_stmt(pos: Pos, body: Box<Stmt>, condition: Box<Expr>) -> Stmt
    ensures { stmt_tree result ≡ DoWhile pos (boxed_tree body) (boxed_expr condition) }
{
    Stmt::DoWhile {
        pos,
        body,
        condition,
    }
}
