// The operand that the words of a row make.
#![tactic(auto)]

use crate::typing::answer;
use crate::typing::letters::{form_of, structs};
use crate::typing::nodes::node;
use c_check_names::{Structs, TypeError};
use c_check_operators::{Operand, value_of};
use c_syntax::{CType, IntType, Pos, TExpr, TExprs, TLvalue};
use std::alloc::{AllocError, AllocFailed, Global};

/// Why a row has no operand at its end.
#[derive(Drop)]
pub enum Fault {
    /// Its words are none of the notation.
    NoRow,
    /// It is refused.
    Refused(TypeError),
    NoMemory,
}

impl From<AllocError> for Fault {
    fn from(_error: AllocError) -> Fault {
        Fault::NoMemory
    }
}

impl<T: Drop> From<AllocFailed<T>> for Fault {
    fn from(_error: AllocFailed<T>) -> Fault {
        Fault::NoMemory
    }
}

impl From<TypeError> for Fault {
    fn from(error: TypeError) -> Fault {
        Fault::Refused(error)
    }
}

/// The structs, and the operands so far.
#[derive(Drop)]
pub struct Stack {
    pub alloc: Global,
    pub structs: Structs,
    operands: Vec<Operand>,
}

/// Every node of a row stands here.
pub const AT: Pos = Pos {
    file: 0,
    line: 1,
    col: 1,
};

/// The type of what the words of a row come to.
pub fn line(alloc: Global, row: &str) -> Result<String, Fault> {
    let operand = operand(alloc, row)?;
    Ok(answer::operand(alloc, &operand)?)
}

fn operand(alloc: Global, row: &str) -> Result<Operand, Fault> {
    let mut stack = Stack {
        alloc,
        structs: structs(alloc)?,
        operands: Vec::new(alloc),
    };
    for word in row.split_whitespace() {
        let operand = match leaf(alloc, word)? {
            Some(operand) => operand,
            None => node(&mut stack, word)?,
        };
        stack.operands.push(operand)?;
    }
    stack.popped()
}

fn leaf(alloc: Global, word: &str) -> Result<Option<Operand>, Fault> {
    if let Ok(value) = word.parse::<i32>() {
        return Ok(Some(Operand::Value(TExpr::Const {
            pos: AT,
            ty: IntType::Int,
            value: i128::from(value),
        })));
    }
    let Some(letters) = word.strip_prefix("@") else {
        return Ok(None);
    };
    let Some((ty, is_const)) = form_of(alloc, letters)? else {
        return Err(Fault::NoRow);
    };
    Ok(Some(place(ty, is_const)))
}

fn place(ty: CType, is_const: bool) -> Operand {
    Operand::Place(TLvalue::Var {
        pos: AT,
        object: 0,
        ty,
        is_const,
    })
}

impl Stack {
    /// The last operand.
    pub fn popped(&mut self) -> Result<Operand, Fault> {
        match self.operands.pop() {
            Some(operand) => Ok(operand),
            None => Err(Fault::NoRow),
        }
    }

    /// The value of the last operand.
    pub fn value(&mut self) -> Result<TExpr, Fault> {
        let operand = self.popped()?;
        Ok(value_of(self.alloc, operand)?)
    }

    /// The last two values, in their order.
    pub fn pair(&mut self) -> Result<(TExpr, TExpr), Fault> {
        let right = self.value()?;
        let left = self.value()?;
        Ok((left, right))
    }

    /// The last value, and the operand before it.
    pub fn stored(&mut self) -> Result<(Operand, TExpr), Fault> {
        let value = self.value()?;
        let operand = self.popped()?;
        Ok((operand, value))
    }

    /// The last values, as many as a word says, in their order.
    pub fn arguments(&mut self, count: &str) -> Result<TExprs, Fault> {
        let Ok(count) = count.parse::<u64>() else {
            return Err(Fault::NoRow);
        };
        let mut args = Vec::new(self.alloc);
        for _ in 0..count {
            args.push(self.value()?)?;
        }
        args.reverse();
        Ok(TExprs::from_vec(args))
    }
}
