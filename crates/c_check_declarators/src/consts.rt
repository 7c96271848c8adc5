// Const of types.
#![tactic(auto)]

ghost use Rattle.std.specs.Prelude.{◌≡◌, ◌&&◌, not, if◌then◌else◌, IfOk, IsTrue};
ghost use Rattle.c_syntax.specs.Types.{ctype_tree};
ghost use Rattle.c_layout.specs.WellTyped as well_typed;
ghost use Rattle.c_typing.specs.Specifiers as specifiers;
ghost use Rattle.c_check_names.specs.Trees.{form_tree};
ghost use Rattle.c_check_declarators.specs.Arrays.{arrays_of};

use c_check_names::Form;
use c_syntax::{CType, Target};
use std::alloc::{AllocError as NoMemory, Global};
use std::rc::Rc;

/// A type, const where it is or where the word `const` stands beside it; an array is one of const elements (C11
/// 6.7.3p9), and const of a function is ignored.
pub fn qualified(alloc: Global, is_const: bool, form: Form) -> Result<Form, NoMemory>
    ensures { IfOk result (λ told. form_tree told ≡ specifiers.qualified is_const (form_tree form)) }
{
    match form {
        Form::Plain(ty, was_const) => {
            if is_array(&ty) {
                let ty = with_const_elements(alloc, ty, is_const)?;
                Ok(Form::Plain(ty, false))
            } else {
                Ok(Form::Plain(ty, was_const || is_const))
            }
        }
        Form::Unsized(of, was_const) => {
            if is_array(&of) {
                let of = with_const_elements(alloc, of, is_const)?;
                Ok(Form::Unsized(of, false))
            } else {
                Ok(Form::Unsized(of, was_const || is_const))
            }
        }
        Form::Callable(params, ret) => Ok(Form::Callable(params, ret)),
    }
}

/// Whether it is an array.
#[tactic(auto, using(c_syntax::proofs::Trees::the_trees))]
pub fn is_array(ty: &CType) -> bool
    ensures { result ≡ well_typed.is_array (ctype_tree ty.now) }
{
    match ty {
        CType::Array(_, _) => true,
        CType::Void | CType::Int(_) | CType::Pointer(_) | CType::Struct(_) | CType::Function(_) =>
            false,
    }
}

/// An array with elements that are const where `is_const` says so or they were; any other type as it is. Arrays of
/// arrays are so at their innermost elements alone. What need not change is shared.
pub fn with_const_elements(alloc: Global, ty: CType, is_const: bool) -> Result<CType, NoMemory>
    ensures { IfOk result (λ told. ctype_tree told ≡ specifiers.with_const_elements (ctype_tree ty) is_const) }
{
    if has_elements_so(&ty, is_const) {
        return Ok(ty);
    }
    let arrays = constant_arrays(alloc, &ty, is_const)?;
    Ok(arrays)
}

// Whether the elements of an array are const already, where they are to be, and the arrays in it are not.
fn has_elements_so(ty: &CType, is_const: bool) -> bool
    ensures { IsTrue result → specifiers.with_const_elements (ctype_tree ty.now) is_const ≡ ctype_tree ty.now }
{
    let mut part = ty;
    'inward: while let CType::Array(of, _) = part {
        if changes(is_array(&of.ty), of.is_const, is_const) {
            return false;
        }
        part = &of.ty;
    }
    true
}

// Whether an array changes at its own target, which is an array or not, and const or not.
fn changes(holds_arrays: bool, was_const: bool, is_const: bool) -> bool
    ensures { result ≡ (if holds_arrays then was_const else (is_const && not was_const)) }
{
    if holds_arrays {
        was_const
    } else {
        is_const && !was_const
    }
}

// The type anew, with the elements of its innermost array const where they are to be.
#[tactic(auto, using(c_syntax::proofs::Trees::the_trees))]
fn constant_arrays(alloc: Global, ty: &CType, is_const: bool) -> Result<CType, NoMemory>
    ensures { IfOk result (λ told. ctype_tree told ≡ specifiers.with_const_elements (ctype_tree ty.now) is_const) }
{
    let mut counts = Vec::new(alloc);
    let mut element_const = false;
    let mut element = ty;
    'inward: while let CType::Array(of, n) = element {
        counts.push(*n)?;
        element_const = of.is_const;
        element = &of.ty;
    }
    let element = element.copy()?;
    let arrays = arrays_of(alloc, counts, element, element_const || is_const)?;
    Ok(arrays)
}

// Arrays of so many elements each, the outermost first.
#[tactic(auto, using(c_syntax::proofs::Trees::the_trees))]
fn arrays_of(
    alloc: Global,
    counts: Vec<u64>,
    element: CType,
    is_const: bool,
) -> Result<CType, NoMemory>
    ensures { IfOk result (λ ty. ctype_tree ty ≡ arrays_of counts.items (ctype_tree element) is_const) }
{
    let mut counts = counts;
    let mut ty = element;
    let mut is_const = is_const;
    'outward: while let Some(n) = counts.pop() {
        ty = CType::Array(Rc::new(alloc, Target { ty, is_const })?, n);
        is_const = false;
    }
    Ok(ty)
}
