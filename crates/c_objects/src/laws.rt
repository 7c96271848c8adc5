// What every memory of objects keeps.
ghost use Rattle.std.specs.Prelude.{◌≡◌, ◌<◌, ◌↔◌, ℕ, ℤ, Bool, List, length, slice_get, IsSome, Option, None, Some};
ghost use Rattle.c_syntax_written.specs.declared.int_type.IntType.{IntType};
ghost use Rattle.c_syntax_written.specs.Integer.{is_signed};
ghost use Rattle.c_syntax.specs.declared.alarm.Cell.{Cell};
ghost use Rattle.c_syntax.specs.Types.{CTypeTree, Int, ObjectTree, Pointer};
ghost use Rattle.c_syntax.specs.Program.{StructDefTree, TProgramTree};
ghost use Rattle.c_layout.specs.Scalars.{IsScalarAt};
ghost use Rattle.c_layout.specs.Tables.{IsTypedTable};
ghost use Rattle.c_layout.specs.WellTyped.{IsStaticObject, IsWellTyped};
ghost use Rattle.c_syntax.specs.TypedStmt.{TInitTree};
ghost use Rattle.block_mem.specs.declared.types.Scalar.{Scalar};
ghost use Rattle.block_mem.specs.declared.types.Scalar.TheVariants as scalars;
ghost use Rattle.block_mem.specs.declared.types.Value.{Value};
ghost use Rattle.block_mem.specs.declared.types.Value.TheVariants as values;
ghost use Rattle.block_mem.specs.Bytes.{IsOf};
ghost use Rattle.block_mem.specs.Proper.{AreProper, IsMade};
ghost use Rattle.c_values.specs.Places as spots;
ghost use Rattle.c_values.specs.Places.{place_of};
ghost use Rattle.c_objects.specs.Cells.{cell_number, cell_spot, is_read_signed, IsCellNumber, IsFoundAt, LoadsFrom, StandsInCell};
ghost use Rattle.c_objects.specs.Kept.{IsKept, KeepsObjects};
ghost use Rattle.c_objects.specs.Opening.{no_objects, opened, shut, undefined};
ghost use Rattle.c_objects.specs.Statics.{AreEightBits, AreWholeInitials, FitInitials, opened_statics, start};
ghost use Rattle.c_objects.specs.Writing.{copied_at, rest, stored_at};

/// Each block has the size and the mark of its object, and is that object's place while it lives; pieces name
/// blocks that were made, and pointers are whole. It is so where no object lives, and stays so where one that
/// does not live begins, where one ends, where a value is stored, where bytes are copied, where bytes lose their
/// values, and where the rest of an initialiser becomes 0.
pub fn memory_keeps()
    ensures none { (objects : List ObjectTree) → IsKept objects (no_objects (length objects)) }
    ensures opened { (objects : List ObjectTree) (m : spots.ObjectMemory) (x : ℕ) → IsKept objects m → x < length objects → place_of m x ≡ None
        → IsKept objects (opened objects m x) }
    ensures shut { (objects : List ObjectTree) (m : spots.ObjectMemory) (x : ℕ) → IsKept objects m → IsKept objects (shut m x) }
    ensures stored { (objects : List ObjectTree) (m : spots.ObjectMemory) (ty : Scalar) (to v : Value) (n : spots.ObjectMemory) → IsKept objects m
        → IsMade (length m.blocks) to → IsOf ty v → IsMade (length m.blocks) v → stored_at m ty to v ≡ Some n → IsKept objects n }
    ensures copied { (objects : List ObjectTree) (m : spots.ObjectMemory) (to from : Value) (size : ℕ) (n : spots.ObjectMemory) → IsKept objects m
        → IsMade (length m.blocks) to → copied_at m to from size ≡ Some n → IsKept objects n }
    ensures undefined { (objects : List ObjectTree) (m : spots.ObjectMemory) (x : ℕ) (n : spots.ObjectMemory) → IsKept objects m → undefined m x ≡ Some n
        → IsKept objects n }
    ensures rest { (objects : List ObjectTree) (m : spots.ObjectMemory) (x : ℕ) (inits : List TInitTree) (n : spots.ObjectMemory) → IsKept objects m
        → rest m x inits ≡ Some n → IsKept objects n }
{}

/// So it stays where pointers may be in parts: the same calls keep all the rest.
pub fn objects_keep()
    ensures none { (objects : List ObjectTree) → KeepsObjects objects (no_objects (length objects)) }
    ensures opened { (objects : List ObjectTree) (m : spots.ObjectMemory) (x : ℕ) → KeepsObjects objects m → x < length objects → place_of m x ≡ None
        → KeepsObjects objects (opened objects m x) }
    ensures shut { (objects : List ObjectTree) (m : spots.ObjectMemory) (x : ℕ) → KeepsObjects objects m → KeepsObjects objects (shut m x) }
    ensures stored { (objects : List ObjectTree) (m : spots.ObjectMemory) (ty : Scalar) (to v : Value) (n : spots.ObjectMemory) → KeepsObjects objects m
        → IsMade (length m.blocks) to → IsOf ty v → IsMade (length m.blocks) v → stored_at m ty to v ≡ Some n → KeepsObjects objects n }
    ensures copied { (objects : List ObjectTree) (m : spots.ObjectMemory) (to from : Value) (size : ℕ) (n : spots.ObjectMemory) → KeepsObjects objects m
        → IsMade (length m.blocks) to → copied_at m to from size ≡ Some n → KeepsObjects objects n }
    ensures undefined { (objects : List ObjectTree) (m : spots.ObjectMemory) (x : ℕ) (n : spots.ObjectMemory) → KeepsObjects objects m
        → undefined m x ≡ Some n → KeepsObjects objects n }
    ensures rest { (objects : List ObjectTree) (m : spots.ObjectMemory) (x : ℕ) (inits : List TInitTree) (n : spots.ObjectMemory) → KeepsObjects objects m
        → rest m x inits ≡ Some n → KeepsObjects objects n }
{}

/// The memory at the start of a run of a well typed program, whose initial bytes have eight bits as each in the
/// code has: each object of static duration has a block, of its size and with its mark, and pieces name blocks
/// that were made. Pointers are whole where the initial bytes have each pointer whole, which well typing alone
/// does not ask of them. What `start` asks for is so.
pub fn start_keeps()
    ensures fits { (program : TProgramTree) → IsWellTyped program → FitInitials (opened_statics program.objects) program.initial }
    ensures placed { (program : TProgramTree) → IsWellTyped program → AreEightBits program.initial → (x : ℕ) → IsStaticObject program x
        → IsSome (place_of (start program.objects program.initial) x) }
    ensures kept { (program : TProgramTree) → IsWellTyped program → AreEightBits program.initial
        → KeepsObjects program.objects (start program.objects program.initial) }
    ensures whole { (program : TProgramTree) → IsWellTyped program → AreEightBits program.initial → AreWholeInitials program.initial
        → IsKept program.objects (start program.objects program.initial) }
{}

/// The number of a cell is read at the integer type that stands at its offset and size in its object: a load at
/// that type gives it, and a cell has one number at most. In a typed table one scalar at most stands there, which
/// is what `scalar_at` of c_layout finds. The spot of a cell is that of the pointer that a load gives, and a
/// pointer stands in a cell of 8 bytes.
pub fn cells_are_read_at_their_types()
    ensures found { (structs : List StructDefTree) (objects : List ObjectTree) (m : spots.ObjectMemory) (cell : Cell) (object : ObjectTree)
        (found : Option CTypeTree) (n : ℤ) → slice_get objects cell.object ≡ Some object → IsFoundAt structs object.ty cell.offset cell.size found
        → IsCellNumber structs objects m cell n ↔ (cell_number (is_read_signed found) m cell ≡ Some n) }
    ensures stands { (structs : List StructDefTree) (whole ty : CTypeTree) (offset size : ℕ) → IsTypedTable structs
        → IsScalarAt structs whole offset size ty → IsFoundAt structs whole offset size (Some ty) }
    ensures typed { (structs : List StructDefTree) (objects : List ObjectTree) (m : spots.ObjectMemory) (cell : Cell) (t : IntType) (n : ℤ)
        → IsTypedTable structs → StandsInCell structs objects cell (Int t)
        → IsCellNumber structs objects m cell n ↔ (cell_number (is_signed t) m cell ≡ Some n) }
    ensures loaded { (structs : List StructDefTree) (objects : List ObjectTree) (m : spots.ObjectMemory) (cell : Cell) (t : IntType) (v : Value)
        → StandsInCell structs objects cell (Int t) → AreProper m.blocks → LoadsFrom m cell (scalars.Int t) v
        → (n : ℤ) × (v ≡ values.Int t n) × (cell_number (is_signed t) m cell ≡ Some n) }
    ensures one { (structs : List StructDefTree) (objects : List ObjectTree) (m : spots.ObjectMemory) (cell : Cell) (n k : ℤ)
        → IsCellNumber structs objects m cell n → IsCellNumber structs objects m cell k → n ≡ k }
    ensures spot { (m : spots.ObjectMemory) (cell : Cell) (v : Value) → LoadsFrom m cell scalars.Pointer v → cell_spot m cell ≡ spots.spot m v }
    ensures wide { (structs : List StructDefTree) (objects : List ObjectTree) (cell : Cell) (to : CTypeTree) (is_const : Bool)
        → StandsInCell structs objects cell (Pointer to is_const) → cell.size ≡ 8 }
{}
