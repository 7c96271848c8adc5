// Loads, stores and copies.
ghost use Rattle.std.specs.Prelude.{◌≡◌, ◌<◌, length, IfOk, List, OnErr, OnOk, Some, true};
ghost use Rattle.c_syntax.specs.Types.{ObjectTree};
ghost use Rattle.c_syntax.specs.Operand.{Point};
ghost use Rattle.block_mem.specs.Blocks as blocks;
ghost use Rattle.block_mem.specs.Blocks.{wrong_access};
ghost use Rattle.block_mem.specs.Bytes.{IsOf, size_of};
ghost use Rattle.block_mem.specs.Proper.{IsMade};
ghost use Rattle.c_values.specs.Accesses.{load_at, read_looks, store_looks, write_looks};
ghost use Rattle.c_values.specs.Answers.{Answers, Finds};
ghost use Rattle.c_values.specs.Looks.{judge};
ghost use Rattle.c_values.specs.Memory.{found, load_outcome};
ghost use Rattle.c_values.specs.Places.{spot_at};
ghost use Rattle.c_objects.specs.Kept.{FitsAt};
ghost use Rattle.c_objects.specs.Writing.{stored_at, with_blocks};

use crate::memory::ObjectMemory;
use block_mem::{Pointer, Scalar, Value};
use c_syntax::{Example, Spot, WrongKind};
use c_values::Wrong;

impl ObjectMemory {
    /// Asks whether so many bytes at a place may be read. It is refused with the place's spot:
    /// NullUse, Dangling, Access or Alignment.
    pub fn check_read(&self, place: Value, size: u64, align: u64) -> Result<(), Wrong>
        requires pointer { IsOf Scalar.Pointer place }
        requires made { IsMade (length self.now.blocks) place }
        ensures { (objects : List ObjectTree) → FitsAt objects self.now place → Finds result (judge objects (read_looks self.now place size align)) }
    {
        match place {
            Value::Ptr(at) => self.access(at, size, align, false),
            _ => Err(null_use()),
        }
    }

    /// Asks whether so many bytes at a place may be written. It is refused as `check_read` says, and
    /// last as ReadOnly.
    pub fn check_write(&self, place: Value, size: u64, align: u64) -> Result<(), Wrong>
        requires pointer { IsOf Scalar.Pointer place }
        requires made { IsMade (length self.now.blocks) place }
        ensures { (objects : List ObjectTree) → FitsAt objects self.now place → Finds result (judge objects (write_looks self.now place size align)) }
    {
        match place {
            Value::Ptr(at) => self.access(at, size, align, true),
            _ => Err(null_use()),
        }
    }

    fn access(&self, at: Pointer, size: u64, align: u64, write: bool) -> Result<(), Wrong>
        requires { at.block < length self.now.blocks }
        ensures { Finds result (found (Point (spot_at self.now at)) (wrong_access self.now.blocks at size align write)) }
    {
        match self.blocks.access(at, size, align, write) {
            Ok(()) => Ok(()),
            Err(kind) => Err(Wrong {
                kind,
                operand: Example::Point(self.spot_at(at)),
            }),
        }
    }

    /// Loads a value of a type. It is refused as `check_read` says, and then for its bytes, with their
    /// mark: Indeterminate or Fragment.
    pub fn load(&self, ty: Scalar, place: Value) -> Result<Value, Wrong>
        requires pointer { IsOf Scalar.Pointer place }
        requires made { IsMade (length self.now.blocks) place }
        ensures answer { (objects : List ObjectTree) → FitsAt objects self.now place → Answers result (load_at objects self.now (Some ty) place) }
        ensures typed { IfOk result (λ v. IsOf ty v) }
        ensures made { IfOk result (λ v. IsMade (length self.now.blocks) v) }
    {
        match place {
            Value::Ptr(at) => self.load_from(ty, at),
            _ => Err(null_use()),
        }
    }

    fn load_from(&self, ty: Scalar, at: Pointer) -> Result<Value, Wrong>
        requires { at.block < length self.now.blocks }
        ensures answer { Answers result (load_outcome (spot_at self.now at) (blocks.load self.now.blocks at ty)) }
        ensures typed { IfOk result (λ v. IsOf ty v) }
        ensures made { IfOk result (λ v. IsMade (length self.now.blocks) v) }
    {
        match self.blocks.load(at, ty) {
            Ok(v) => Ok(v),
            Err(kind) => Err(Wrong {
                kind,
                operand: match kind {
                    WrongKind::Indeterminate => Example::Undef,
                    WrongKind::Fragment => Example::Broken,
                    _ => Example::Point(self.spot_at(at)),
                },
            }),
        }
    }

    /// Stores a value of a type. It is refused as `check_write` says, and then changes nothing.
    pub fn store(&mut self, ty: Scalar, place: Value, v: Value) -> Result<(), Wrong>
        requires pointer { IsOf Scalar.Pointer place }
        requires place_made { IsMade (length self.old.blocks) place }
        requires typed { IsOf ty v }
        requires made { IsMade (length self.old.blocks) v }
        ensures checked { (objects : List ObjectTree) → FitsAt objects self.old place → Finds result (judge objects (store_looks self.old (Some ty) place)) }
        ensures ok { OnOk result (stored_at self.old ty place v ≡ Some self.new) }
        ensures err { OnErr result (self.new ≡ self.old) }
    {
        match place {
            Value::Ptr(at) => self.store_to(ty, at, v),
            _ => Err(null_use()),
        }
    }

    fn store_to(&mut self, ty: Scalar, at: Pointer, v: Value) -> Result<(), Wrong>
        requires place_made { at.block < length self.old.blocks }
        requires typed { IsOf ty v }
        requires made { IsMade (length self.old.blocks) v }
        ensures checked { Finds result (found (Point (spot_at self.old at)) (wrong_access self.old.blocks at (size_of ty) (size_of ty) true)) }
        ensures ok { OnOk result (self.new ≡ with_blocks self.old (blocks.store self.old.blocks at v)) }
        ensures err { OnErr result (self.new ≡ self.old) }
    {
        let spot = self.spot_at(at);
        match self.blocks.store(at, ty, v) {
            Ok(()) => Ok(()),
            Err(kind) => Err(Wrong {
                kind,
                operand: Example::Point(spot),
            }),
        }
    }
}

fn null_use() -> Wrong
    ensures { result ≡ record { kind = WrongKind.NullUse; operand = Example.Point Spot.Null } }
{
    Wrong {
        kind: WrongKind::NullUse,
        operand: Example::Point(Spot::Null),
    }
}
