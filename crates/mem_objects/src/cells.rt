// What is known of integer objects.
#![tactic(auto, using(c_syntax::proofs::Trees::the_trees))]

ghost use Rattle.std.specs.Prelude.{◌≡◌, ℕ, List, false, IsTrue, IfOk, IfSome, None, Some, length, map, option_map, replicate, slice_set};
ghost use Rattle.c_syntax.specs.Types.{ObjectTree, ctype_tree, object_tree};
ghost use Rattle.c_syntax_written.specs.declared.int_type.IntType.{IntType};
ghost use Rattle.c_syntax_written.specs.Integer.{HasNumber};
ghost use Rattle.block_mem.specs.Bytes.{IsOf};
ghost use Rattle.c_objects.specs.Kept.{AllFit};
ghost use Rattle.num_api.specs.Ranges.{common};
ghost use Rattle.mem_temps.specs.Operators.{LiesIn};
ghost use Rattle.mem_objects.specs.Cells.{cell_of, knows_cells, undefined_cell, narrowed, IsJoined, IsWider, AreWider, opened_cell, opened_at, entered, ended, number_loaded, read_number, read_cell as cell_in, read_at};

use block_mem::{Scalar, Value};
use c_objects::ObjectMemory;
use c_syntax::{CType, IntType, Object};
use ext_int::{max, min};
use machine_nums::type_range;
use mem_temps::holds_all;
use num_api::Range;
use std::alloc::{AllocError as NoMemory, Global};
use std::marker::Model;

/// What is known of an integer object that lives.
#[derive(Clone, Copy)]
pub struct KnownCell {
    pub ty: IntType,
    /// A range of its number, where it has one.
    pub range: Range,
    /// Whether it may have no value.
    pub may_be_undefined: bool,
    pub read_only: bool,
}

/// What is known of integer objects, by their numbers. Of an object without a cell nothing is known.
#[derive(Drop)]
pub struct Cells {
    items: Vec<Option<KnownCell>>,
}

impl Model for Cells {
    ghost use Rattle.std.specs.Prelude.{List, Option};
    ghost use Rattle.mem_objects.specs.declared.cells.KnownCell.{KnownCell};

    ghost Value = { List (Option KnownCell) };

    ghost view = { λ l. l.items.items };
}

// The numbers of both ranges.
fn common(r: Range, s: Range) -> Range
    ensures { result ≡ common r s }
{
    Range {
        lo: max(r.lo, s.lo),
        hi: min(r.hi, s.hi),
    }
}

// What is known of an integer object that begins to live.
fn opened_cell(object: &Object) -> Option<KnownCell>
    ensures { result ≡ opened_cell (object_tree object.now) (ctype_tree object.now.ty) }
{
    match &object.ty {
        CType::Int(ty) => Some(KnownCell {
            ty: *ty,
            range: type_range(*ty),
            may_be_undefined: true,
            read_only: object.read_only,
        }),
        CType::Void
        | CType::Pointer(_)
        | CType::Array(_, _)
        | CType::Struct(_)
        | CType::Function(_) => None,
    }
}

// What is known of an object, by its number, that begins to live.
fn opened_at(objects: &[Object], x: u64) -> Option<KnownCell>
    ensures { result ≡ opened_at (map object_tree objects.now) x }
{
    match objects.get(x as usize) {
        Some(object) => opened_cell(object),
        None => None,
    }
}

// The number of a value that is one.
fn number_of(v: Value) -> Option<i128>
    ensures number { result ≡ number_loaded (Some v) }
    ensures typed { (t : IntType) → IsOf (Scalar.Int t) v → IfSome result (HasNumber t) }
{
    match v {
        Value::Int(_, n) => Some(n),
        Value::Ptr(_) | Value::Null => None,
    }
}

// The number that an integer object has in memory, if it has one.
fn read_number(memory: &ObjectMemory, x: u64, ty: IntType) -> Option<i128>
    requires { (objects : List ObjectTree) × AllFit objects memory.now }
    ensures number { result ≡ read_number memory.now x ty }
    ensures typed { IfSome result (HasNumber ty) }
{
    if memory.place(x).is_none() {
        return None;
    }
    match memory.load(Scalar::Int(ty), memory.address(x, 0)) {
        Ok(v) => number_of(v),
        Err(_) => None,
    }
}

// What an integer object has in memory.
fn read_cell(memory: &ObjectMemory, x: u64, object: &Object) -> Option<KnownCell>
    requires { (objects : List ObjectTree) × AllFit objects memory.now }
    ensures cell { result ≡ cell_in memory.now x (object_tree object.now) (ctype_tree object.now.ty) }
    ensures inside { IfSome result (λ c. LiesIn c.ty c.range) }
{
    match &object.ty {
        CType::Int(ty) => match read_number(memory, x, *ty) {
            Some(n) => Some(KnownCell {
                ty: *ty,
                range: Range::point(n),
                may_be_undefined: false,
                read_only: object.read_only,
            }),
            None => None,
        },
        CType::Void
        | CType::Pointer(_)
        | CType::Array(_, _)
        | CType::Struct(_)
        | CType::Function(_) => None,
    }
}

// What an object, by its number, has in memory.
fn read_at(objects: &[Object], memory: &ObjectMemory, x: u64) -> Option<KnownCell>
    requires { (known : List ObjectTree) × AllFit known memory.now }
    ensures cell { result ≡ read_at (map object_tree objects.now) memory.now x }
    ensures inside { IfSome result (λ c. LiesIn c.ty c.range) }
{
    match objects.get(x as usize) {
        Some(object) => read_cell(memory, x, object),
        None => None,
    }
}

// What holds on both of two ways.
fn joined(a: Option<KnownCell>, b: Option<KnownCell>) -> Option<KnownCell>
    ensures { IsJoined a b result }
{
    match (a, b) {
        (Some(c), Some(d)) => {
            if c.ty == d.ty && c.read_only == d.read_only {
                Some(KnownCell {
                    ty: c.ty,
                    range: c.range.hull(d.range),
                    may_be_undefined: c.may_be_undefined || d.may_be_undefined,
                    read_only: c.read_only,
                })
            } else {
                None
            }
        }
        _ => None,
    }
}

// Whether it is known that the first has all that the second has.
fn is_wider(c: KnownCell, d: KnownCell) -> bool
    ensures { IsTrue result → IsWider c d }
{
    c.ty == d.ty
        && c.read_only == d.read_only
        && holds_all(c.range, d.range)
        && (c.may_be_undefined || !d.may_be_undefined)
}

// Whether all that the first says of an object follows from the second.
fn covers_one(a: Option<KnownCell>, b: Option<KnownCell>) -> bool
    ensures yes { IsTrue result → (c : KnownCell) → a ≡ Some c → (d : KnownCell) × (b ≡ Some d) × IsWider c d }
    ensures no { result ≡ false → (c : KnownCell) × (a ≡ Some c) }
{
    match (a, b) {
        (None, _) => true,
        (Some(c), Some(d)) => is_wider(c, d),
        (Some(_), None) => false,
    }
}

impl Cells {
    /// What is read of the objects in memory, whose blocks are theirs.
    pub fn start(
        alloc: Global,
        objects: &[Object],
        memory: &ObjectMemory,
    ) -> Result<Cells, NoMemory>
        requires { AllFit (map object_tree objects.now) memory.now }
        ensures size { IfOk result (λ cells. length cells ≡ length objects.now) }
        ensures read { IfOk result (λ cells. (x : ℕ) → cell_of cells x ≡ read_at (map object_tree objects.now) memory.now x) }
        ensures inside { IfOk result (λ cells. (x : ℕ) → IfSome (cell_of cells x) (λ c. LiesIn c.ty c.range)) }
    {
        let mut items = Vec::new(alloc);
        for x in 0..objects.len() as u64 {
            items.push(read_at(objects, memory, x))?;
        }
        Ok(Cells { items })
    }

    /// The same once more.
    pub fn copy(&self) -> Result<Cells, NoMemory>
        ensures { IfOk result (λ cells. cells ≡ self.now) }
    {
        let items = self.items.clone()?;
        Ok(Cells { items })
    }

    /// How many objects there are.
    pub fn len(&self) -> usize
        ensures { result ≡ length self.now }
    {
        self.items.len()
    }

    /// What is known of an object.
    pub fn get(&self, x: u64) -> Option<KnownCell>
        ensures { result ≡ cell_of self.now x }
    {
        match self.items.get(x as usize) {
            Some(cell) => *cell,
            None => None,
        }
    }

    // Puts what is known of an object that is there.
    fn set(&mut self, x: u64, cell: Option<KnownCell>)
        ensures { self.new ≡ slice_set self.old x cell }
    {
        let x = x as usize;
        if x < self.items.len() {
            self.items[x] = cell;
        }
    }

    /// Puts what is known of an object that is there.
    pub fn put(&mut self, x: u64, cell: KnownCell)
        ensures { self.new ≡ slice_set self.old x (Some cell) }
    {
        self.set(x, Some(cell));
    }

    /// Takes away what is known of an object.
    pub fn hide(&mut self, x: u64)
        ensures { self.new ≡ slice_set self.old x None }
    {
        self.set(x, None);
    }

    /// The object has any number of its type, or no value.
    pub fn undefine(&mut self, x: u64)
        ensures { self.new ≡ slice_set self.old x (option_map undefined_cell (cell_of self.old x)) }
    {
        let cell = match self.get(x) {
            Some(c) => Some(KnownCell {
                ty: c.ty,
                range: type_range(c.ty),
                may_be_undefined: true,
                read_only: c.read_only,
            }),
            None => None,
        };
        self.set(x, cell);
    }

    /// The number of the object lies in this range too.
    pub fn cut(&mut self, x: u64, range: Range)
        ensures { self.new ≡ slice_set self.old x (option_map (narrowed range) (cell_of self.old x)) }
    {
        let cell = match self.get(x) {
            Some(c) => Some(KnownCell {
                ty: c.ty,
                range: common(c.range, range),
                may_be_undefined: c.may_be_undefined,
                read_only: c.read_only,
            }),
            None => None,
        };
        self.set(x, cell);
    }

    /// These objects begin to live, without a value.
    pub fn enter(&mut self, objects: &[Object], names: &[u64])
        ensures { self.new ≡ entered (map object_tree objects.now) names.now self.old }
    {
        for name in names {
            self.set(*name, opened_at(objects, *name));
        }
    }

    /// These objects end.
    pub fn leave(&mut self, names: &[u64])
        ensures { self.new ≡ ended names.now self.old }
    {
        for name in names {
            self.set(*name, None);
        }
    }

    /// Takes all away that is known.
    pub fn forget(&mut self)
        ensures { self.new ≡ replicate (length self.old) None }
    {
        for x in 0..self.len() as u64 {
            self.set(x, None);
        }
    }

    /// Keeps what holds of these and of the others.
    pub fn join(&mut self, other: &Cells)
        ensures size { length self.new ≡ length self.old }
        ensures joins { (x : ℕ) → IsJoined (cell_of self.old x) (cell_of other.now x) (cell_of self.new x) }
    {
        for x in 0..self.len() as u64 {
            let cell = joined(self.get(x), other.get(x));
            self.set(x, cell);
        }
    }

    /// Whether it is known that all that these say follows from the others.
    pub fn covers(&self, other: &Cells) -> bool
        ensures yes { IsTrue result → AreWider self.now other.now }
        ensures no { result ≡ false → IsTrue (knows_cells self.now) }
    {
        for x in 0..self.len() as u64 {
            if !covers_one(self.get(x), other.get(x)) {
                return false;
            }
        }
        true
    }

    /// Whether anything is known.
    pub fn knows(&self) -> bool
        ensures { result ≡ knows_cells self.now }
    {
        for x in 0..self.len() as u64 {
            if self.get(x).is_some() {
                return true;
            }
        }
        false
    }
}
