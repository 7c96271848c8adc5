// Types and declarators in the short notation.
#![tactic(auto, using(c_syntax_written::proofs::Trees::the_written_trees, c_syntax_written::proofs::Sizes::the_written_sizes))]

use crate::exprs::{expr, operation};
use crate::text::{Written, shown, word};
use c_syntax_written::{
    Declarator, Declarators, Enumerator, Enumerators, Expr, MemberDecl, MemberDecls, Name, Param,
    Params, Spec, Specs, Tag,
};

/// A type with its declarator, as `Int (* a)`.
#[cycle(shape)]
pub fn type_name(out: &mut String, specs: &Specs, declarator: &Declarator) -> Written {
    spec_list(out, specs)?;
    out.push(' ')?;
    declare(out, declarator)
}

/// Specs, with spaces between them.
#[cycle(shape)]
pub fn spec_list(out: &mut String, specs: &Specs) -> Written {
    let mut first = true;
    for item in specs.as_slice() {
        if !first {
            out.push(' ')?;
        }
        first = false;
        spec(out, item)?;
    }
    Ok(())
}

#[cycle(shape)]
fn spec(out: &mut String, spec: &Spec) -> Written {
    match spec {
        Spec::Storage { word, .. } => shown(out, word),
        Spec::Const { .. } => out.push_str("const"),
        Spec::Basic { word, .. } => shown(out, word),
        Spec::TypedefName { name, .. } => headed(out, "'", name),
        Spec::Struct { tag, .. } => headed(out, "struct ", &tag.name),
        Spec::StructBody { tag, members, .. } => struct_body(out, tag, members),
        Spec::Enum { tag, .. } => headed(out, "enum ", &tag.name),
        Spec::EnumBody {
            tag,
            enumerators,
            ..
        } => enum_body(out, tag, enumerators),
    }
}

fn headed(out: &mut String, head: &str, name: &Name) -> Written {
    out.push_str(head)?;
    word(out, name)
}

fn tag_name(out: &mut String, tag: &Option<Tag>) -> Written {
    match tag {
        Some(tag) => word(out, &tag.name),
        None => Ok(()),
    }
}

#[cycle(shape)]
fn struct_body(out: &mut String, tag: &Option<Tag>, members: &MemberDecls) -> Written {
    out.push_str("struct ")?;
    tag_name(out, tag)?;
    out.push('{')?;
    for item in members.as_slice() {
        member_line(out, item)?;
    }
    out.push('}')
}

#[cycle(shape)]
fn member_line(out: &mut String, line: &MemberDecl) -> Written {
    match line {
        MemberDecl::Members {
            specs,
            declarators,
            ..
        } => members(out, specs, declarators),
    }
}

// Members that are declared together.
#[cycle(shape)]
fn members(out: &mut String, specs: &Specs, declarators: &Declarators) -> Written {
    spec_list(out, specs)?;
    for item in declarators.as_slice() {
        out.push(' ')?;
        declare(out, item)?;
    }
    out.push(';')
}

#[cycle(shape)]
fn enum_body(out: &mut String, tag: &Option<Tag>, enumerators: &Enumerators) -> Written {
    out.push_str("enum ")?;
    tag_name(out, tag)?;
    out.push('{')?;
    for item in enumerators.as_slice() {
        enumerator(out, item)?;
        out.push(',')?;
    }
    out.push('}')
}

#[cycle(shape)]
fn enumerator(out: &mut String, item: &Enumerator) -> Written {
    match item {
        Enumerator::Plain { name, .. } => word(out, name),
        Enumerator::Valued { name, value, .. } => valued(out, name, value),
    }
}

#[cycle(shape)]
fn valued(out: &mut String, name: &Name, value: &Expr) -> Written {
    word(out, name)?;
    out.push('=')?;
    expr(out, value)
}

/// A declarator from the outside in, as `(fn f void)`.
#[cycle(shape)]
pub fn declare(out: &mut String, declarator: &Declarator) -> Written {
    match declarator {
        Declarator::Absent => out.push('_'),
        Declarator::Name { name, .. } => word(out, name),
        Declarator::Grouped { inner, .. } => around(out, "[", inner, "]"),
        Declarator::Pointer {
            is_const,
            inner,
            ..
        } => around(out, pointer(*is_const), inner, ")"),
        Declarator::Array { inner, size, .. } => array(out, inner, size),
        Declarator::OpenArray { inner, .. } => around(out, "(array ", inner, ")"),
        Declarator::Function { inner, params, .. } => function(out, inner, params),
        Declarator::VoidFunction { inner, .. } => around(out, "(fn ", inner, " void)"),
    }
}

fn pointer(is_const: bool) -> &'static str {
    if is_const { "(*const " } else { "(* " }
}

#[cycle(shape)]
fn around(out: &mut String, head: &str, inner: &Declarator, end: &str) -> Written {
    out.push_str(head)?;
    declare(out, inner)?;
    out.push_str(end)
}

#[cycle(shape)]
fn array(out: &mut String, inner: &Declarator, size: &Expr) -> Written {
    out.push_str("(array ")?;
    declare(out, inner)?;
    operation(out, " ", size)
}

#[cycle(shape)]
fn function(out: &mut String, inner: &Declarator, params: &Params) -> Written {
    out.push_str("(fn ")?;
    declare(out, inner)?;
    for item in params.as_slice() {
        out.push(' ')?;
        param(out, item)?;
    }
    out.push(')')
}

// A parameter with a name stands between `{` and `}`, and one without between `<` and `>`.
#[cycle(shape)]
fn param(out: &mut String, param: &Param) -> Written {
    match param {
        Param::Named {
            specs,
            declarator,
            ..
        } => parameter(out, '{', specs, declarator, '}'),
        Param::Abstract {
            specs,
            declarator,
            ..
        } => parameter(out, '<', specs, declarator, '>'),
    }
}

#[cycle(shape)]
fn parameter(
    out: &mut String,
    open: char,
    specs: &Specs,
    declarator: &Declarator,
    close: char,
) -> Written {
    out.push(open)?;
    type_name(out, specs, declarator)?;
    out.push(close)
}
