// Types once more.
#![tactic(auto)]

ghost use Rattle.std.specs.Prelude.{◌≡◌, IfOk, map};
ghost use Rattle.c_syntax.specs.Types.{ctype_tree};
ghost use Rattle.c_check_names.specs.Trees.{form_tree};

use c_check_names::Form;
use c_syntax::CType;
use std::alloc::{AllocError as NoMemory, Global};

/// A copy of a type as a declaration gives it, which shares what it is made of.
pub fn copy_form(alloc: Global, form: &Form) -> Result<Form, NoMemory>
    ensures { IfOk result (λ copy. form_tree copy ≡ form_tree form.now) }
{
    match form {
        Form::Plain(ty, is_const) => Ok(Form::Plain(ty.copy()?, *is_const)),
        Form::Unsized(of, is_const) => Ok(Form::Unsized(of.copy()?, *is_const)),
        Form::Callable(params, ret) => {
            let params = copy_types(alloc, params.as_slice())?;
            Ok(Form::Callable(params, ret.copy()?))
        }
    }
}

/// Copies of types, which share what they are made of.
pub fn copy_types(alloc: Global, types: &[CType]) -> Result<Vec<CType>, NoMemory>
    ensures { IfOk result (λ copies. map ctype_tree copies.items ≡ map ctype_tree types.now) }
{
    let mut copies = Vec::new(alloc);
    for ty in types {
        let copy = ty.copy()?;
        copies.push(copy)?;
    }
    Ok(copies)
}
