// Nodes of types and declarators.
#![tactic(auto, using(c_syntax_written::proofs::Trees::the_written_trees))]

ghost use Rattle.std.specs.Prelude.{◌≡◌, IfOk, option_map};
ghost use Rattle.c_syntax_written.specs.Written.{declarator_tree, declarators_from, declarators_then, enumerator_tree, enumerators_from, enumerators_then, memberdecl_tree, memberdecls_from, memberdecls_then, more_declarators, more_enumerators, more_members, more_params, more_specs, no_declarators, no_enumerators, no_members, no_params, no_specs, param_tree, params_from, params_then, spec_tree, specs_from, specs_then, specs_tree, Array, Grouped, OpenArray, Pointer, Valued, Function, Members};
ghost use Rattle.c_grammar.specs.Made.{declared_word, function_of, is_bare_void, is_given, is_type, param_of, specs_pos};
ghost use Rattle.c_parser_steps.specs.Kinds.{is_void_alone, is_void_spec, is_void_word};
ghost use Rattle.c_parser_steps.specs.Views.{boxed_declarator, boxed_expr};

use c_syntax_written::{
    Declarator, Enumerator, Expr, MemberDecl, Name, Param, Params, Pos, Spec, Specs, TypeWord,
    boxed,
};
use std::alloc::{AllocError, Global};

/// A declarator between parentheses.
pub fn grouped_declarator(
    alloc: Global,
    pos: Pos,
    inner: Box<Declarator>,
) -> Result<Box<Declarator>, AllocError>
    ensures { IfOk result (λ d. boxed_declarator d ≡ Grouped pos (boxed_declarator inner)) }
{
    boxed(alloc, Declarator::Grouped { pos, inner })
}

/// `*` and what it points to.
pub fn pointer_declarator(
    alloc: Global,
    pos: Pos,
    is_const: bool,
    inner: Box<Declarator>,
) -> Result<Box<Declarator>, AllocError>
    ensures { IfOk result (λ d. boxed_declarator d ≡ Pointer pos is_const (boxed_declarator inner)) }
{
    boxed(
        alloc,
        Declarator::Pointer {
            pos,
            is_const,
            inner,
        },
    )
}

/// A size behind a declarator.
pub fn array_declarator(
    alloc: Global,
    pos: Pos,
    inner: Box<Declarator>,
    size: Box<Expr>,
) -> Result<Box<Declarator>, AllocError>
    ensures { IfOk result (λ d. boxed_declarator d ≡ Array pos (boxed_declarator inner) (boxed_expr size)) }
{
    boxed(alloc, Declarator::Array { pos, inner, size })
}

/// Brackets without a size behind a declarator.
pub fn open_array_declarator(
    alloc: Global,
    pos: Pos,
    inner: Box<Declarator>,
) -> Result<Box<Declarator>, AllocError>
    ensures { IfOk result (λ d. boxed_declarator d ≡ OpenArray pos (boxed_declarator inner)) }
{
    boxed(alloc, Declarator::OpenArray { pos, inner })
}

/// These parameters behind a declarator.
pub fn function_declarator(
    alloc: Global,
    pos: Pos,
    inner: Box<Declarator>,
    params: Vec<Param>,
) -> Result<Box<Declarator>, AllocError>
    ensures { IfOk result (λ d. boxed_declarator d ≡ function_of pos (boxed_declarator inner) (params_from params.items)) }
{
    if is_void(params.as_slice()) {
        return boxed(alloc, Declarator::VoidFunction { pos, inner });
    }
    let params = Params::from_vec(params);
    boxed(alloc, Declarator::Function { pos, inner, params })
}

// `void` alone.
fn is_void(params: &[Param]) -> bool
    ensures { result ≡ is_void_alone (params_from params.now) }
{
    match params {
        [param] => is_bare_void(param),
        _ => false,
    }
}

fn is_bare_void(param: &Param) -> bool
    ensures { result ≡ is_bare_void (param_tree param.now) }
{
    match param {
        Param::Abstract {
            specs,
            declarator,
            ..
        } => {
            if is_given(declarator) {
                return false;
            }
            is_void_word(specs.as_slice())
        }
        Param::Named { .. } => false,
    }
}

fn is_void_word(specs: &[Spec]) -> bool
    ensures { result ≡ is_void_word (specs_from specs.now) }
{
    match specs {
        [spec] => is_void_spec(spec),
        _ => false,
    }
}

#[tactic(auto, unfolding(c_syntax_written::specs::Written::spec_tree))]
fn is_void_spec(spec: &Spec) -> bool
    ensures { result ≡ is_void_spec (spec_tree spec.now) }
{
    match spec {
        Spec::Basic { word, .. } => matches!(word, TypeWord::Void),
        _ => false,
    }
}

/// No parameters behind a declarator.
pub fn empty_declarator(
    alloc: Global,
    pos: Pos,
    inner: Box<Declarator>,
) -> Result<Box<Declarator>, AllocError>
    ensures { IfOk result (λ d. boxed_declarator d ≡ Function pos (boxed_declarator inner) no_params) }
{
    let params = Params::new(alloc);
    boxed(alloc, Declarator::Function { pos, inner, params })
}

/// A constant of an enumeration with its value.
pub fn valued_enumerator(pos: Pos, name: Name, value: Box<Expr>) -> Enumerator
    ensures { enumerator_tree result ≡ Valued pos name (boxed_expr value) }
{
    Enumerator::Valued { pos, name, value }
}

/// Whether the declarator has a token.
#[tactic(auto, unfolding(c_syntax_written::specs::Written::declarator_tree))]
pub fn is_given(declarator: &Declarator) -> bool
    ensures { result ≡ is_given (declarator_tree declarator.now) }
{
    !matches!(declarator, Declarator::Absent)
}

/// Whether the spec tells a type.
#[tactic(auto, unfolding(c_syntax_written::specs::Written::spec_tree))]
pub fn is_type(spec: &Spec) -> bool
    ensures { result ≡ is_type (spec_tree spec.now) }
{
    !matches!(spec, Spec::Storage { .. } | Spec::Const { .. })
}

/// The place of the first spec.
pub fn specs_pos(specs: &Specs) -> Pos
    ensures { result ≡ specs_pos (specs_tree specs.now) }
{
    match specs.as_slice() {
        [first, ..] => first.pos(),
        [] => Pos {
            file: 0,
            line: 0,
            col: 0,
        },
    }
}

/// The word that a declarator declares.
#[tactic(auto, using(c_syntax_written::proofs::Trees::the_written_trees), unfolding(c_grammar::specs::Made::declared_word))]
pub fn declared_word(declarator: &Declarator) -> Option<&Name>
    ensures { option_map (λ n. n.now) result ≡ declared_word (declarator_tree declarator.now) }
{
    let mut rest = declarator;
    loop {
        match rest {
            Declarator::Absent => return None,
            Declarator::Name { name, .. } => return Some(name),
            Declarator::Grouped { inner, .. }
            | Declarator::Pointer { inner, .. }
            | Declarator::Array { inner, .. }
            | Declarator::OpenArray { inner, .. }
            | Declarator::Function { inner, .. }
            | Declarator::VoidFunction { inner, .. } => rest = inner,
        }
    }
}

/// A parameter, named or not.
pub fn param_of(specs: Specs, declarator: Box<Declarator>) -> Param
    ensures { param_tree result ≡ param_of (specs_tree specs) (boxed_declarator declarator) }
{
    let pos = specs_pos(&specs);
    let declarator = Box::into_inner(declarator);
    if declared_word(&declarator).is_some() {
        Param::Named {
            pos,
            specs,
            declarator,
        }
    } else {
        Param::Abstract {
            pos,
            specs,
            declarator,
        }
    }
}

/// One more at the end.
pub fn push_spec(items: &mut Vec<Spec>, next: Spec) -> Result<(), AllocError>
    ensures { IfOk result (λ _. specs_from items.new.items ≡ specs_then (specs_from items.old.items) (spec_tree next)) }
{
    items.push(next)?;
    Ok(())
}

/// One more at the end.
pub fn push_member(items: &mut Vec<MemberDecl>, next: MemberDecl) -> Result<(), AllocError>
    ensures { IfOk result (λ _. memberdecls_from items.new.items ≡ memberdecls_then (memberdecls_from items.old.items) (memberdecl_tree next)) }
{
    items.push(next)?;
    Ok(())
}

/// One more at the end.
pub fn push_enumerator(items: &mut Vec<Enumerator>, next: Enumerator) -> Result<(), AllocError>
    ensures { IfOk result (λ _. enumerators_from items.new.items ≡ enumerators_then (enumerators_from items.old.items) (enumerator_tree next)) }
{
    items.push(next)?;
    Ok(())
}

/// One more at the end.
pub fn push_declarator(items: &mut Vec<Declarator>, next: Box<Declarator>) -> Result<(), AllocError>
    ensures { IfOk result (λ _. declarators_from items.new.items ≡ declarators_then (declarators_from items.old.items) (boxed_declarator next)) }
{
    items.push(Box::into_inner(next))?;
    Ok(())
}

/// One more at the end.
pub fn push_param(items: &mut Vec<Param>, next: Param) -> Result<(), AllocError>
    ensures { IfOk result (λ _. params_from items.new.items ≡ params_then (params_from items.old.items) (param_tree next)) }
{
    items.push(next)?;
    Ok(())
}
