// Temporaries that are copies of objects.
#![tactic(auto, using(csharp::proofs::CodeTrees::the_code_trees))]

ghost use Rattle.std.specs.Prelude.{◌≡◌, ℕ, false, IsTrue, IfOk, None, Some, length, replicate, slice_set};
ghost use Rattle.plain_runs.specs.States.{agreed};
ghost use Rattle.plain_runs.specs.Changes.{unless};
ghost use Rattle.csharp.specs.Trees.{csexpr_tree};
ghost use Rattle.mem_objects.specs.Copies.{copy_of, knows_copies, source_in, without, without_all};

use csharp::CsExpr;
use std::alloc::{AllocError as NoMemory, Global};
use std::marker::Model;

/// The objects of which temporaries are copies, by the temporaries' numbers.
#[derive(Drop)]
pub struct Copies {
    items: Vec<Option<u64>>,
}

impl Model for Copies {
    ghost use Rattle.std.specs.Prelude.{List, Option, ℕ};

    ghost Value = { List (Option ℕ) };

    ghost view = { λ l. l.items.items };
}

// The object of which a temporary is a copy on both of two ways.
fn agreed(a: Option<u64>, b: Option<u64>) -> Option<u64>
    ensures { result ≡ agreed a b }
{
    match (a, b) {
        (Some(x), Some(y)) => { if x == y { Some(x) } else { None } }
        (Some(_), None) => None,
        (None, _) => None,
    }
}

// The object of which a temporary is a copy, where that is another one.
fn unless(x: u64, copy: Option<u64>) -> Option<u64>
    ensures { result ≡ unless x copy }
{
    match copy {
        Some(y) => { if x == y { None } else { Some(y) } }
        None => None,
    }
}

// Whether the first is no copy, or one of the object of which the second is.
fn covers_one(a: Option<u64>, b: Option<u64>) -> bool
    ensures yes { IsTrue result → (x : ℕ) → a ≡ Some x → b ≡ Some x }
    ensures no { result ≡ false → (x : ℕ) × (a ≡ Some x) }
{
    match (a, b) {
        (None, _) => true,
        (Some(x), Some(y)) => x == y,
        (Some(_), None) => false,
    }
}

impl Copies {
    /// So many temporaries, of which none is a copy.
    pub fn none(alloc: Global, count: usize) -> Result<Copies, NoMemory>
        ensures { IfOk result (λ copies. copies ≡ replicate count None) }
    {
        let items = vec![in alloc; None; count]?;
        Ok(Copies { items })
    }

    /// The same once more.
    pub fn copy(&self) -> Result<Copies, NoMemory>
        ensures { IfOk result (λ copies. copies ≡ self.now) }
    {
        let items = self.items.clone()?;
        Ok(Copies { items })
    }

    /// How many temporaries there are.
    pub fn len(&self) -> usize
        ensures { result ≡ length self.now }
    {
        self.items.len()
    }

    /// The object of which a temporary is a copy.
    pub fn get(&self, temp: u64) -> Option<u64>
        ensures { result ≡ copy_of self.now temp }
    {
        match self.items.get(temp as usize) {
            Some(copy) => *copy,
            None => None,
        }
    }

    /// The object of which an expression is a copy: a temporary is of what that is.
    pub fn source(&self, e: &CsExpr) -> Option<u64>
        ensures { result ≡ source_in self.now (csexpr_tree e.now) }
    {
        match e {
            CsExpr::Temp { temp } => self.get(*temp),
            CsExpr::Const { .. }
            | CsExpr::Null
            | CsExpr::Address { .. }
            | CsExpr::Unary { .. }
            | CsExpr::Binary { .. }
            | CsExpr::Convert { .. } => None,
        }
    }

    /// Says of which object a temporary that is there is a copy.
    pub fn put(&mut self, temp: u64, object: Option<u64>)
        ensures { self.new ≡ slice_set self.old temp object }
    {
        let temp = temp as usize;
        if temp < self.items.len() {
            self.items[temp] = object;
        }
    }

    /// No temporary is a copy of the object any more.
    pub fn forget_object(&mut self, object: u64)
        ensures { self.new ≡ without object self.old }
    {
        for temp in 0..self.len() as u64 {
            let copy = unless(object, self.get(temp));
            self.put(temp, copy);
        }
    }

    /// No temporary is a copy of any of the objects any more.
    pub fn forget_objects(&mut self, objects: &[u64])
        ensures { self.new ≡ without_all objects.now self.old }
    {
        for object in objects {
            self.forget_object(*object);
        }
    }

    /// No temporary is a copy any more.
    pub fn forget(&mut self)
        ensures { self.new ≡ replicate (length self.old) None }
    {
        for temp in 0..self.len() as u64 {
            self.put(temp, None);
        }
    }

    /// Keeps the copies that these and the others agree on.
    pub fn join(&mut self, other: &Copies)
        ensures size { length self.new ≡ length self.old }
        ensures agrees { (d : ℕ) → copy_of self.new d ≡ agreed (copy_of self.old d) (copy_of other.now d) }
    {
        for temp in 0..self.len() as u64 {
            let object = agreed(self.get(temp), other.get(temp));
            self.put(temp, object);
        }
    }

    /// Whether each of these copies is known to be one of the others.
    pub fn covers(&self, other: &Copies) -> bool
        ensures yes { IsTrue result → (d x : ℕ) → copy_of self.now d ≡ Some x → copy_of other.now d ≡ Some x }
        ensures no { result ≡ false → IsTrue (knows_copies self.now) }
    {
        for temp in 0..self.len() as u64 {
            if !covers_one(self.get(temp), other.get(temp)) {
                return false;
            }
        }
        true
    }

    /// Whether any temporary is a copy.
    pub fn knows(&self) -> bool
        ensures { result ≡ knows_copies self.now }
    {
        for temp in 0..self.len() as u64 {
            if self.get(temp).is_some() {
                return true;
            }
        }
        false
    }
}
