// Declarations in the short notation.
#![tactic(auto, using(c_syntax_written::proofs::Trees::the_written_trees, c_syntax_written::proofs::Sizes::the_written_sizes))]

use crate::exprs::expr;
use crate::text::Written;
use crate::types::{declare, spec_list};
use c_syntax_written::{Decl, Init, InitDeclarator};

/// A declaration, as `Int a=1;`.
pub fn decl(out: &mut String, decl: &Decl) -> Written {
    spec_list(out, &decl.specs)?;
    for item in decl.inits.as_slice() {
        out.push(' ')?;
        init_declarator(out, item)?;
    }
    out.push(';')
}

fn init_declarator(out: &mut String, item: &InitDeclarator) -> Written {
    declare(out, &item.declarator)?;
    match &item.init {
        Some(found) => initialised(out, found),
        None => Ok(()),
    }
}

fn initialised(out: &mut String, value: &Init) -> Written {
    out.push('=')?;
    init(out, value)
}

fn init(out: &mut String, value: &Init) -> Written {
    match value {
        Init::Value { value } => expr(out, value),
        Init::Braces { items, .. } => {
            out.push('{')?;
            for item in items.as_slice() {
                init(out, item)?;
                out.push(',')?;
            }
            out.push('}')
        }
    }
}
