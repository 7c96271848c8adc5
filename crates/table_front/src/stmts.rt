// Statements and files in the short notation.
#![tactic(auto, using(c_syntax_written::proofs::Trees::the_written_trees, c_syntax_written::proofs::Sizes::the_written_sizes))]

use crate::decls::decl;
use crate::exprs::expr;
use crate::text::{Written, word};
use crate::types::type_name;
use c_syntax_written::{BlockItem, BlockItems, Expr, File, ForHead, ForStart, Name, Outer, Stmt};

/// A file, as `Int (fn f void){return (Plus a b);}`.
pub fn file(out: &mut String, file: &File) -> Written {
    for item in file.outers.as_slice() {
        outer(out, item)?;
    }
    Ok(())
}

fn outer(out: &mut String, item: &Outer) -> Written {
    match item {
        Outer::Declared(found) => decl(out, found),
        Outer::Function {
            specs,
            declarator,
            body,
            ..
        } => {
            type_name(out, specs, declarator)?;
            block(out, body)
        }
    }
}

#[cycle(statements)]
fn block(out: &mut String, items: &BlockItems) -> Written {
    out.push('{')?;
    for item in items.as_slice() {
        block_item(out, item)?;
    }
    out.push('}')
}

#[cycle(statements)]
fn block_item(out: &mut String, item: &BlockItem) -> Written {
    match item {
        BlockItem::Declaration(found) => decl(out, found),
        BlockItem::Statement(found) => stmt(out, found),
    }
}

#[cycle(statements)]
fn stmt(out: &mut String, s: &Stmt) -> Written {
    match s {
        Stmt::Label { name, body, .. } => label(out, name, body),
        Stmt::Case { value, body, .. } => case(out, value, body),
        Stmt::Default { body, .. } => behind(out, "default:", body),
        Stmt::Block { items, .. } => block(out, items),
        Stmt::Empty { .. } => out.push(';'),
        Stmt::Expression { value, .. } => ended(out, value),
        Stmt::If {
            condition,
            then,
            ..
        } => headed(out, "(if ", condition, then),
        Stmt::IfElse {
            condition,
            then,
            otherwise,
            ..
        } => if_else(out, condition, then, otherwise),
        Stmt::Switch { value, body, .. } => headed(out, "(switch ", value, body),
        Stmt::While {
            condition,
            body,
            ..
        } => headed(out, "(while ", condition, body),
        Stmt::DoWhile {
            body,
            condition,
            ..
        } => headed(out, "(do ", condition, body),
        Stmt::For { head, body, .. } => for_loop(out, head, body),
        Stmt::Goto { label, .. } => goto(out, label),
        Stmt::Continue { .. } => out.push_str("continue;"),
        Stmt::Break { .. } => out.push_str("break;"),
        Stmt::Return { value, .. } => returned(out, value),
    }
}

#[cycle(statements)]
fn label(out: &mut String, name: &Name, body: &Stmt) -> Written {
    word(out, name)?;
    behind(out, ":", body)
}

#[cycle(statements)]
fn case(out: &mut String, value: &Expr, body: &Stmt) -> Written {
    out.push_str("case ")?;
    expr(out, value)?;
    behind(out, ":", body)
}

#[cycle(statements)]
fn behind(out: &mut String, head: &str, body: &Stmt) -> Written {
    out.push_str(head)?;
    stmt(out, body)
}

// A statement behind a head and its condition.
#[cycle(statements)]
fn headed(out: &mut String, head: &str, condition: &Expr, body: &Stmt) -> Written {
    out.push_str(head)?;
    expr(out, condition)?;
    behind(out, " ", body)?;
    out.push(')')
}

#[cycle(statements)]
fn if_else(out: &mut String, condition: &Expr, then: &Stmt, otherwise: &Stmt) -> Written {
    out.push_str("(if ")?;
    expr(out, condition)?;
    behind(out, " ", then)?;
    behind(out, " else ", otherwise)?;
    out.push(')')
}

#[cycle(statements)]
fn for_loop(out: &mut String, head: &ForHead, body: &Stmt) -> Written {
    out.push_str("(for ")?;
    for_head(out, head)?;
    behind(out, " ", body)?;
    out.push(')')
}

fn for_head(out: &mut String, head: &ForHead) -> Written {
    for_start(out, &head.start)?;
    optional(out, &head.condition)?;
    out.push(';')?;
    optional(out, &head.step)
}

fn for_start(out: &mut String, start: &ForStart) -> Written {
    match start {
        ForStart::Nothing => out.push(';'),
        ForStart::Value(value) => ended(out, value),
        ForStart::Declares(found) => decl(out, found),
    }
}

fn ended(out: &mut String, value: &Expr) -> Written {
    expr(out, value)?;
    out.push(';')
}

fn goto(out: &mut String, label: &Name) -> Written {
    out.push_str("goto ")?;
    word(out, label)?;
    out.push(';')
}

fn returned(out: &mut String, value: &Option<Box<Expr>>) -> Written {
    out.push_str("return ")?;
    optional(out, value)?;
    out.push(';')
}

fn optional(out: &mut String, value: &Option<Box<Expr>>) -> Written {
    match value {
        Some(found) => expr(out, found),
        None => Ok(()),
    }
}
