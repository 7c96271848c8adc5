// What a text of C says at last: declarators, and expressions in the bodies of functions.
#![tactic(auto)]

use crate::files::file;
use crate::typing::answer;
use crate::typing::declared::{declare, told};
use crate::typing::rows::Fault;
use c_check_declarators::copy_form;
use c_check_exprs::{declarator, operand};
use c_check_names::World;
use c_check_nodes::{Address, static_address, static_place};
use c_check_operators::{Operand, constant_value};
use c_syntax::{BlockItem, BlockItems, Decl, Declarator, Expr, File, Outer, Pos, Specs, Stmt};
use std::alloc::{AllocError, Global};

/// The type of the last declarator of a text or of its last expression, with what this is as a constant.
pub fn line(alloc: Global, text: &str) -> Result<String, Fault> {
    match file(alloc, text.as_bytes())? {
        Some(file) => read(alloc, &file),
        None => Err(Fault::NoRow),
    }
}

fn read(alloc: Global, file: &File) -> Result<String, Fault> {
    let mut world = World::new(alloc);
    outers(&mut world, file)
}

fn outers(world: &mut World, file: &File) -> Result<String, Fault> {
    let mut line = String::new(world.alloc());
    for outer in file.outers.as_slice() {
        line = self::outer(world, outer)?;
    }
    Ok(line)
}

fn outer(world: &mut World, outer: &Outer) -> Result<String, Fault> {
    match outer {
        Outer::Declared(decl) => declaration(world, decl),
        Outer::Function {
            pos,
            specs,
            declarator,
            body,
            ..
        } => {
            function(world, *pos, specs, declarator)?;
            expressions(world, body)
        }
    }
}

// Declares the function that is defined.
fn function(world: &mut World, pos: Pos, specs: &Specs, written: &Declarator) -> Result<(), Fault> {
    let form = told(world, false, pos, specs)?.form;
    let shape = declarator(world, written)?;
    declare(world, false, form, shape)?;
    Ok(())
}

fn declaration(world: &mut World, decl: &Decl) -> Result<String, Fault> {
    let items = decl.inits.as_slice();
    let base = told(world, items.is_empty(), decl.pos, &decl.specs)?;
    let mut line = answer::form(world.alloc(), &base.form)?;
    for item in items {
        if item.init.is_some() {
            return Err(Fault::NoRow);
        }
        let form = copy_form(world.alloc(), &base.form)?;
        let shape = declarator(world, &item.declarator)?;
        line = declare(world, base.is_typedef, form, shape)?;
    }
    Ok(line)
}

// The last of the expressions that a body is made of.
fn expressions(world: &mut World, body: &BlockItems) -> Result<String, Fault> {
    let mut line = String::new(world.alloc());
    for item in body.as_slice() {
        line = match item {
            BlockItem::Statement(Stmt::Expression { value, .. }) => expression(world, value)?,
            _ => return Err(Fault::NoRow),
        };
    }
    Ok(line)
}

fn expression(world: &mut World, written: &Expr) -> Result<String, Fault> {
    let operand = operand(world, written)?;
    told_of(world, &operand)
}

// The type of an operand, and what it is as a constant.
fn told_of(world: &World, operand: &Operand) -> Result<String, Fault> {
    let address = address_of(world, operand)?;
    let number = number_of(operand)?;
    let mut line = answer::operand(world.alloc(), operand)?;
    if let Some(number) = number {
        write!(line, " {number}")?;
    }
    held(&mut line, address)?;
    Ok(line)
}

fn address_of(world: &World, operand: &Operand) -> Result<Option<Address>, AllocError> {
    let objects = world.objects.as_slice();
    match operand {
        Operand::Place(place) => static_place(objects, place),
        Operand::Value(value) => static_address(objects, value),
    }
}

fn number_of(operand: &Operand) -> Result<Option<i128>, AllocError> {
    match operand {
        Operand::Place(_) => Ok(None),
        Operand::Value(value) => constant_value(value),
    }
}

// What a static pointer holds: null, or the number of an object and a distance from its start.
fn held(line: &mut String, address: Option<Address>) -> Result<(), AllocError> {
    match address {
        None => Ok(()),
        Some(Address::Nowhere) => line.push_str(" null"),
        Some(Address::Inside { object, offset }) => write!(line, " {object}+{offset}"),
    }
}
