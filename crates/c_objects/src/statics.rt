// Memory at the start of a run.
ghost use Rattle.std.specs.Prelude.{◌≡◌, ◌<◌, ◌≤◌, ◌^◌, pos, All, IfOk, IsSome, length, map, OnOk};
ghost use Rattle.c_syntax.specs.Types.{object_tree};
ghost use Rattle.c_syntax.specs.Program.{TProgramTree};
ghost use Rattle.c_layout.specs.WellTyped.{IsWellTyped};
ghost use Rattle.block_mem.specs.Blocks.{block_at, set_byte};
ghost use Rattle.c_objects.specs.Kept.{IsKept, KeepsObjects};
ghost use Rattle.c_objects.specs.Statics as statics;
ghost use Rattle.c_objects.specs.Statics.{AreEightBits, AreWholeInitials, FitInitials, FitsInitial, HasBitsIn, HasBlock, HasEightBits, initial_byte};
ghost use Rattle.block_mem.specs.Proper.{IsProper};
ghost use Rattle.c_values.specs.Places.{place_of};
ghost use Rattle.c_objects.specs.Writing.{with_blocks};

use crate::memory::ObjectMemory;
use block_mem::{Byte, Pointer};
use c_syntax::{InitByte, Initial, Object};
use std::alloc::{AllocError as NoMemory, Global};

impl ObjectMemory {
    /// The memory at the start of a run: each object of static duration lives, in the order of their
    /// numbers, and has its initial bytes. The blocks of all are there before any byte is put in. Of a
    /// well typed program it is one that calls keep, and each initial number has eight bits; pointers
    /// in it are whole where the initial bytes have each pointer whole.
    pub fn start(
        alloc: Global,
        objects: &[Object],
        initials: &[Initial],
    ) -> Result<ObjectMemory, NoMemory>
        requires { FitInitials (statics.opened_statics (map object_tree objects.now)) initials.now }
        ensures start { IfOk result (λ m. m ≡ statics.start (map object_tree objects.now) initials.now) }
        ensures bits { IfOk result (λ m. (program : TProgramTree) → IsWellTyped program → program.objects ≡ map object_tree objects.now
            → program.initial ≡ initials.now → AreEightBits program.initial) }
        ensures kept { IfOk result (λ m. (program : TProgramTree) → IsWellTyped program → program.objects ≡ map object_tree objects.now
            → program.initial ≡ initials.now → KeepsObjects program.objects m) }
        ensures whole { IfOk result (λ m. (program : TProgramTree) → IsWellTyped program → program.objects ≡ map object_tree objects.now
            → program.initial ≡ initials.now → AreWholeInitials initials.now → IsKept program.objects m) }
    {
        let mut memory = ObjectMemory::new(alloc, objects.len())?;
        memory.open_statics(objects)?;
        memory.put_initials(initials);
        Ok(memory)
    }

    // Puts in the initial bytes of objects, in their order.
    fn put_initials(&mut self, initials: &[Initial])
        requires { FitInitials self.old initials.now }
        ensures put { self.new ≡ statics.with_initials self.old initials.now }
        ensures bits { All (HasBitsIn self.old) initials.now }
    {
        for initial in initials {
            self.put_initial(initial);
        }
    }

    // Makes the blocks of the static objects.
    fn open_statics(&mut self, objects: &[Object]) -> Result<(), NoMemory>
        requires { length objects.now ≤ length self.old.places }
        ensures { OnOk result (self.new ≡ statics.open_statics (map object_tree objects.now) (map object_tree objects.now) 0 self.old) }
    {
        for (number, object) in objects.iter().enumerate() {
            if object.is_static {
                self.open(objects, number as u64)?;
            }
        }
        Ok(())
    }

    // Puts in the initial bytes of an object.
    fn put_initial(&mut self, initial: &Initial)
        requires { FitsInitial self.old initial.now }
        ensures put { self.new ≡ statics.with_initial self.old initial.now }
        ensures bits { HasBitsIn self.old initial.now }
    {
        if let Some(block) = self.place(initial.object) {
            self.put_bytes(block, initial.bytes.as_slice());
        }
    }

    fn put_bytes(&mut self, block: u64, bytes: &[InitByte])
        requires made { block < length self.old.blocks }
        requires inside { length bytes.now ≤ length (block_at self.old.blocks block).bytes }
        requires named { All (λ byte. HasBlock self.old.places byte) bytes.now }
        ensures put { self.new ≡ statics.with_initial_bytes self.old block bytes.now }
        ensures bits { All HasEightBits bytes.now }
    {
        for (offset, byte) in bytes.iter().enumerate() {
            self.put_byte(block, offset, *byte);
        }
    }

    fn put_byte(&mut self, block: u64, offset: usize, byte: InitByte)
        requires made { block < length self.old.blocks }
        requires inside { offset < length (block_at self.old.blocks block).bytes }
        requires small { offset < 2 ^ 63 }
        requires named { HasBlock self.old.places byte }
        ensures put { self.new ≡ with_blocks self.old (set_byte self.old.blocks (record { block = block; offset = pos offset }) (initial_byte self.old byte)) }
        ensures bits { HasEightBits byte }
    {
        let byte = self.initial_byte(byte);
        let at = Pointer {
            block,
            offset: offset as i64,
        };
        self.blocks.set_byte(at, byte);
    }

    // A byte of an initial value.
    fn initial_byte(&self, byte: InitByte) -> Byte
        requires { HasBlock self.now.places byte }
        ensures byte { result ≡ initial_byte self.now byte }
        ensures proper { IsProper (length self.now.blocks) result }
        ensures bits { HasEightBits byte }
    {
        match byte {
            InitByte::Num(number) => Byte::Num(number),
            InitByte::Piece { object, offset, k } => Byte::Frag(
                Pointer {
                    block: self.block_of(object),
                    offset,
                },
                k,
            ),
        }
    }

    fn block_of(&self, object: u64) -> u64
        requires { IsSome (place_of self.now object) }
        ensures block { result ≡ statics.block_of self.now object }
        ensures made { result < length self.now.blocks }
    {
        match self.place(object) {
            Some(block) => block,
            None => unreachable!(),
        }
    }
}
