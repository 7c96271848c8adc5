// Nodes of expressions.
#![tactic(auto, using(c_syntax_written::proofs::Trees::the_written_trees))]

ghost use Rattle.std.specs.Prelude.{◌≡◌, IfOk};
ghost use Rattle.c_syntax_written.specs.Written.{exprs_from, exprs_tree, specs_tree, expr_tree, exprs_then, more_exprs, no_exprs, Assign, Binary, Call, Cast, Comma, Compound, Cond, Dot, Arrow, Enclosed, Index, PostStep, PreStep, SizeofExpr, SizeofType, Unary};
ghost use Rattle.c_grammar.specs.Made.{is_word, joined};
ghost use Rattle.c_parser_steps.specs.Views.{boxed_declarator, boxed_expr};

use c_grammar::Joint;
use c_syntax_written::{
    AssignOp, Declarator, Expr, Exprs, Name, Pos, Specs, StepWay, UnaryOp, boxed,
};
use std::alloc::{AllocError, Global};

/// An expression between parentheses.
pub fn enclosed_expr(alloc: Global, pos: Pos, inner: Box<Expr>) -> Result<Box<Expr>, AllocError>
    ensures { IfOk result (λ e. boxed_expr e ≡ Enclosed pos (boxed_expr inner)) }
{
    boxed(alloc, Expr::Enclosed { pos, inner })
}

/// An index.
pub fn index_expr(
    alloc: Global,
    pos: Pos,
    base: Box<Expr>,
    index: Box<Expr>,
) -> Result<Box<Expr>, AllocError>
    ensures { IfOk result (λ e. boxed_expr e ≡ Index pos (boxed_expr base) (boxed_expr index)) }
{
    boxed(alloc, Expr::Index { pos, base, index })
}

/// A call of a word.
pub fn call_expr(alloc: Global, pos: Pos, name: Name, args: Exprs) -> Result<Box<Expr>, AllocError>
    ensures { IfOk result (λ e. boxed_expr e ≡ Call pos name (exprs_tree args)) }
{
    let name = boxed(alloc, name)?;
    let args = boxed(alloc, args)?;
    boxed(alloc, Expr::Call { pos, name, args })
}

/// A member, by a point.
pub fn dot_expr(
    alloc: Global,
    pos: Pos,
    base: Box<Expr>,
    member: Name,
) -> Result<Box<Expr>, AllocError>
    ensures { IfOk result (λ e. boxed_expr e ≡ Dot pos (boxed_expr base) member) }
{
    let member = boxed(alloc, member)?;
    boxed(alloc, Expr::Dot { pos, base, member })
}

/// A member, by an arrow.
pub fn arrow_expr(
    alloc: Global,
    pos: Pos,
    base: Box<Expr>,
    member: Name,
) -> Result<Box<Expr>, AllocError>
    ensures { IfOk result (λ e. boxed_expr e ≡ Arrow pos (boxed_expr base) member) }
{
    let member = boxed(alloc, member)?;
    boxed(alloc, Expr::Arrow { pos, base, member })
}

/// `++` or `--` behind its operand.
pub fn post_step_expr(
    alloc: Global,
    pos: Pos,
    way: StepWay,
    operand: Box<Expr>,
) -> Result<Box<Expr>, AllocError>
    ensures { IfOk result (λ e. boxed_expr e ≡ PostStep pos way (boxed_expr operand)) }
{
    boxed(alloc, Expr::PostStep { pos, way, operand })
}

/// `++` or `--` before its operand.
pub fn pre_step_expr(
    alloc: Global,
    pos: Pos,
    way: StepWay,
    operand: Box<Expr>,
) -> Result<Box<Expr>, AllocError>
    ensures { IfOk result (λ e. boxed_expr e ≡ PreStep pos way (boxed_expr operand)) }
{
    boxed(alloc, Expr::PreStep { pos, way, operand })
}

/// A unary operator and its operand.
pub fn unary_expr(
    alloc: Global,
    pos: Pos,
    op: UnaryOp,
    operand: Box<Expr>,
) -> Result<Box<Expr>, AllocError>
    ensures { IfOk result (λ e. boxed_expr e ≡ Unary pos op (boxed_expr operand)) }
{
    boxed(alloc, Expr::Unary { pos, op, operand })
}

/// `sizeof` of an expression.
pub fn sizeof_expr(alloc: Global, pos: Pos, operand: Box<Expr>) -> Result<Box<Expr>, AllocError>
    ensures { IfOk result (λ e. boxed_expr e ≡ SizeofExpr pos (boxed_expr operand)) }
{
    boxed(alloc, Expr::SizeofExpr { pos, operand })
}

/// `sizeof` of a type.
pub fn sizeof_type(
    alloc: Global,
    pos: Pos,
    specs: Specs,
    declarator: Box<Declarator>,
) -> Result<Box<Expr>, AllocError>
    ensures { IfOk result (λ e. boxed_expr e ≡ SizeofType pos (specs_tree specs) (boxed_declarator declarator)) }
{
    let specs = boxed(alloc, specs)?;
    boxed(
        alloc,
        Expr::SizeofType {
            pos,
            specs,
            declarator,
        },
    )
}

/// A cast.
pub fn cast_expr(
    alloc: Global,
    pos: Pos,
    specs: Specs,
    declarator: Box<Declarator>,
    operand: Box<Expr>,
) -> Result<Box<Expr>, AllocError>
    ensures { IfOk result (λ e. boxed_expr e ≡ Cast pos (specs_tree specs) (boxed_declarator declarator) (boxed_expr operand)) }
{
    let specs = boxed(alloc, specs)?;
    boxed(
        alloc,
        Expr::Cast {
            pos,
            specs,
            declarator,
            operand,
        },
    )
}

/// A conditional.
pub fn cond_expr(
    alloc: Global,
    pos: Pos,
    condition: Box<Expr>,
    then: Box<Expr>,
    otherwise: Box<Expr>,
) -> Result<Box<Expr>, AllocError>
    ensures { IfOk result (λ e. boxed_expr e ≡ Cond pos (boxed_expr condition) (boxed_expr then) (boxed_expr otherwise)) }
{
    boxed(
        alloc,
        Expr::Cond {
            pos,
            condition,
            then,
            otherwise,
        },
    )
}

/// An assignment.
pub fn assign_expr(
    alloc: Global,
    pos: Pos,
    left: Box<Expr>,
    right: Box<Expr>,
) -> Result<Box<Expr>, AllocError>
    ensures { IfOk result (λ e. boxed_expr e ≡ Assign pos (boxed_expr left) (boxed_expr right)) }
{
    boxed(alloc, Expr::Assign { pos, left, right })
}

/// An assignment by an operator.
pub fn compound_expr(
    alloc: Global,
    pos: Pos,
    op: AssignOp,
    left: Box<Expr>,
    right: Box<Expr>,
) -> Result<Box<Expr>, AllocError>
    ensures { IfOk result (λ e. boxed_expr e ≡ Compound pos op (boxed_expr left) (boxed_expr right)) }
{
    boxed(
        alloc,
        Expr::Compound {
            pos,
            op,
            left,
            right,
        },
    )
}

/// Two operands and what stands between them.
pub fn joined(
    alloc: Global,
    joint: Joint,
    pos: Pos,
    left: Box<Expr>,
    right: Box<Expr>,
) -> Result<Box<Expr>, AllocError>
    ensures { IfOk result (λ e. boxed_expr e ≡ joined joint pos (boxed_expr left) (boxed_expr right)) }
{
    let whole = match joint {
        Joint::Comma => Expr::Comma { pos, left, right },
        Joint::Binary(op) => Expr::Binary {
            pos,
            op,
            left,
            right,
        },
    };
    boxed(alloc, whole)
}

/// One more expression at the end.
pub fn push_expr(items: &mut Vec<Expr>, next: Box<Expr>) -> Result<(), AllocError>
    ensures { IfOk result (λ _. exprs_from items.new.items ≡ exprs_then (exprs_from items.old.items) (boxed_expr next)) }
{
    items.push(Box::into_inner(next))?;
    Ok(())
}

/// Whether it is a word alone.
#[tactic(auto, unfolding(c_syntax_written::specs::Written::expr_tree))]
pub fn is_word(base: &Expr) -> bool
    ensures { result ≡ is_word (expr_tree base.now) }
{
    matches!(base, Expr::Word { .. })
}
