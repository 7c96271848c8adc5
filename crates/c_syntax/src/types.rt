// Types of C, and the objects that have them.
#![tactic(auto, using(crate::proofs::Trees::the_trees))]

ghost use Rattle.std.specs.Prelude.{◌≡◌, ◌↔◌, IfOk, IsTrue};
ghost use Rattle.c_syntax.specs.Types.{HasNoTarget, ctype_tree, object_tree};

use crate::{IntType, Name, Pos};
use std::alloc::AllocError as NoMemory;
use std::rc::Rc;

/// A type. A struct and a function go by their numbers in the program.
#[cycle(types)]
pub enum CType {
    /// `void`
    Void,
    /// `unsigned long`
    Int(IntType),
    /// `const int *`, whose target is const.
    Pointer(Rc<Target>),
    /// `int [3]`, of three elements.
    Array(Rc<Target>, u64),
    /// `struct s`, by its number.
    Struct(u64),
    /// A function, by its number.
    Function(u64),
}

/// What a pointer points to, or an array is made of.
#[cycle(types)]
#[derive(Drop)]
pub struct Target {
    pub ty: CType,
    pub is_const: bool,
}

// By a loop, so that a long chain takes no stack. What others share stays.
impl Drop for CType {
    fn drop(mut self) {
        loop {
            match self {
                CType::Void | CType::Int(_) | CType::Struct(_) | CType::Function(_) => return,
                CType::Pointer(to) => match Rc::into_inner(to) {
                    None => return,
                    Some(target) => {
                        let Target { ty, is_const: _ } = target;
                        self = ty;
                    }
                },
                CType::Array(of, _) => match Rc::into_inner(of) {
                    None => return,
                    Some(target) => {
                        let Target { ty, is_const: _ } = target;
                        self = ty;
                    }
                },
            }
        }
    }
}

/// A variable or a string literal, whose name is then `string`. Its size is in bytes.
#[derive(Drop)]
pub struct Object {
    pub name: Name,
    pub pos: Pos,
    pub ty: CType,
    pub size: u64,
    pub read_only: bool,
    pub is_static: bool,
}

impl CType {
    /// A copy of the type, which shares what it is made of.
    pub fn copy(&self) -> Result<CType, NoMemory>
        ensures { IfOk result (λ copy. ctype_tree copy ≡ ctype_tree self.now) }
    {
        match self {
            CType::Void => Ok(CType::Void),
            CType::Int(t) => Ok(CType::Int(*t)),
            CType::Pointer(to) => Ok(CType::Pointer(to.clone()?)),
            CType::Array(of, n) => Ok(CType::Array(of.clone()?, *n)),
            CType::Struct(n) => Ok(CType::Struct(*n)),
            CType::Function(n) => Ok(CType::Function(*n)),
        }
    }
}

impl Object {
    /// The same object once more, which shares its type.
    pub fn copy(&self) -> Result<Object, NoMemory>
        ensures { IfOk result (λ copy. object_tree copy ≡ object_tree self.now) }
    {
        Ok(Object {
            name: self.name.copy()?,
            pos: self.pos,
            ty: self.ty.copy()?,
            size: self.size,
            read_only: self.read_only,
            is_static: self.is_static,
        })
    }
}

/// Whether the two are one type, const included.
pub fn same_type(a: &CType, b: &CType) -> bool
    ensures { IsTrue result ↔ (ctype_tree a.now ≡ ctype_tree b.now) }
{
    let mut a = a;
    let mut b = b;
    loop {
        match a {
            CType::Pointer(s) => match b {
                CType::Pointer(t) => {
                    if s.is_const != t.is_const {
                        return false;
                    }
                    a = &s.ty;
                    b = &t.ty;
                }
                _ => return false,
            },
            CType::Array(s, m) => match b {
                CType::Array(t, n) => {
                    if m != n || s.is_const != t.is_const {
                        return false;
                    }
                    a = &s.ty;
                    b = &t.ty;
                }
                _ => return false,
            },
            CType::Void | CType::Int(_) | CType::Struct(_) | CType::Function(_) => {
                return same_core(a, b);
            }
        }
    }
}

// The same, where the first is no pointer and no array.
fn same_core(a: &CType, b: &CType) -> bool
    requires { HasNoTarget (ctype_tree a.now) }
    ensures { IsTrue result ↔ (ctype_tree a.now ≡ ctype_tree b.now) }
{
    match a {
        CType::Void => match b {
            CType::Void => true,
            _ => false,
        },
        CType::Pointer(_) | CType::Array(_, _) => false,
        CType::Int(s) => match b {
            CType::Int(t) => s == t,
            _ => false,
        },
        CType::Struct(m) => match b {
            CType::Struct(n) => m == n,
            _ => false,
        },
        CType::Function(m) => match b {
            CType::Function(n) => m == n,
            _ => false,
        },
    }
}
