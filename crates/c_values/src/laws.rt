// Laws on operators, looks and accesses.
ghost use Rattle.std.specs.Prelude.{◌≡◌, ℕ, Bool, false, true, List, ◌∷◌, Option, Some};
ghost use Rattle.c_syntax.specs.declared.alarm.Check.{Check};
ghost use Rattle.c_syntax.specs.declared.operator.TUnaryOp.{TUnaryOp};
ghost use Rattle.c_syntax.specs.declared.operator.TBinaryOp.{TBinaryOp};
ghost use Rattle.c_syntax.specs.Types.{CTypeTree, ObjectTree};
ghost use Rattle.c_syntax.specs.Operand.{Operand, Point};
ghost use Rattle.c_syntax.specs.Admission.{Fails};
ghost use Rattle.c_layout.specs.Checks.{load_checks, store_checks, test_checks, unary_checks};
ghost use Rattle.block_mem.specs.declared.types.Pointer.{Pointer};
ghost use Rattle.block_mem.specs.declared.types.Scalar.{Scalar};
ghost use Rattle.block_mem.specs.declared.types.Value.{Value};
ghost use Rattle.block_mem.specs.Blocks.{wrong_access, load};
ghost use Rattle.block_mem.specs.Bytes.{IsOf, size_of};
ghost use Rattle.c_values.specs.declared.values.Given.{Given};
ghost use Rattle.c_values.specs.Accesses.{read_looks, write_looks, store_looks, load_at};
ghost use Rattle.c_values.specs.Looks.{Look, judge, FailsAs};
ghost use Rattle.c_values.specs.Memory.{Fits, found, load_outcome};
ghost use Rattle.c_values.specs.Operators.{binary, member, unary};
ghost use Rattle.c_values.specs.Places.{ObjectMemory, spot_at};
ghost use Rattle.c_values.specs.Typed.{IsSettled, TakesBoth, TakesOne, binary_type, unary_type};
ghost use Rattle.c_values.specs.Values.{plain_type, scalar_of};

use block_mem::{Scalar, Value};

/// An operator on operands of its types comes to a value of its type, or to something wrong, in
/// each memory; it is never stuck.
pub fn typed_operators_settle()
    ensures binary { (objects : List ObjectTree) (m : ObjectMemory) (op : TBinaryOp) (v u : Value) → TakesBoth op v u
        → IsSettled (binary_type op) (binary objects m op v u) }
    ensures unary { (objects : List ObjectTree) (m : ObjectMemory) (op : TUnaryOp) (ty : Scalar) (v : Value) → TakesOne op ty v
        → IsSettled (unary_type op) (unary objects m op (Some ty) v) }
    ensures member { (objects : List ObjectTree) (m : ObjectMemory) (v : Value) (offset : ℕ) → IsOf Scalar.Pointer v
        → IsSettled Scalar.Pointer (member objects m v offset) }
{}

/// What is found of an access to a block that fits its object is what memory says of the access.
pub fn accesses_are_judged_as_in_memory()
    ensures reads { (objects : List ObjectTree) (m : ObjectMemory) (p : Pointer) (size align : ℕ) → Fits objects m p.block
        → judge objects (read_looks m (Value.Ptr p) size align) ≡ found (Point (spot_at m p)) (wrong_access m.blocks p size align false) }
    ensures writes { (objects : List ObjectTree) (m : ObjectMemory) (p : Pointer) (size align : ℕ) → Fits objects m p.block
        → judge objects (write_looks m (Value.Ptr p) size align) ≡ found (Point (spot_at m p)) (wrong_access m.blocks p size align true) }
    ensures stores { (objects : List ObjectTree) (m : ObjectMemory) (p : Pointer) (ty : Scalar) → Fits objects m p.block
        → judge objects (store_looks m (Some ty) (Value.Ptr p)) ≡ found (Point (spot_at m p)) (wrong_access m.blocks p (size_of ty) (size_of ty) true) }
    ensures loads { (objects : List ObjectTree) (m : ObjectMemory) (p : Pointer) (ty : Scalar) → Fits objects m p.block
        → load_at objects m (Some ty) (Value.Ptr p) ≡ load_outcome (spot_at m p) (load m.blocks p ty) }
{}

/// A look fails exactly where its operand fails its check; where it does not, those behind it
/// decide.
pub fn looks_fail_as_checks_do()
    ensures fails { (objects : List ObjectTree) (check : Check) (x : Operand) (rest : List Look) → Fails objects check x
        → judge objects (record { check = check; operand = Some x } ∷ rest) ≡ FailsAs check.kind x }
    ensures passes { (objects : List ObjectTree) (check : Check) (x : Operand) (rest : List Look) → (Fails objects check x → ⊥)
        → judge objects (record { check = check; operand = Some x } ∷ rest) ≡ judge objects rest }
{}

/// The checks of a load, a store, a test and an operator ask of a type only which scalar it is.
pub fn checks_ask_for_the_scalar()
    ensures loads { (ty : CTypeTree) → load_checks ty ≡ load_checks (plain_type (scalar_of ty)) }
    ensures stores { (ty : CTypeTree) → store_checks ty ≡ store_checks (plain_type (scalar_of ty)) }
    ensures tests { (ty : CTypeTree) → test_checks ty ≡ test_checks (plain_type (scalar_of ty)) }
    ensures operators { (op : TUnaryOp) (ty : CTypeTree) → unary_checks op ty ≡ unary_checks op (plain_type (scalar_of ty)) }
{}
