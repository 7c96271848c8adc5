// Arrays and structs that are filled part by part.
#![tactic(auto)]

use crate::parts::{Part, count_in, part_at};
use c_syntax::{CType, StructDefs};
use std::alloc::AllocError as NoMemory;

/// An array or a struct whose parts are filled one after the other, or a scalar, which is its own one part: how many parts
/// it has, if that is told, and the next one.
#[derive(Drop)]
pub struct Frame {
    pub ty: CType,
    pub offset: u64,
    pub count: Option<u64>,
    pub next: u64,
}

impl Frame {
    ghost use Rattle.std.specs.Prelude.{◌≡◌, IfOk, OnOk, map};
    ghost use Rattle.c_syntax.specs.Types.{ctype_tree};
    ghost use Rattle.c_syntax.specs.Program.{structdef_tree};
    ghost use Rattle.c_typing.specs.CurrentObject as objects;
    ghost use Rattle.c_check_fills.specs.RoomViews.{frame_tree, part_tree};

    /// A part, of which nothing is filled yet.
    pub fn of(structs: &StructDefs, part: Part) -> Frame
        ensures { frame_tree result ≡ objects.frame_of (map structdef_tree structs.now) (part_tree part) }
    {
        let Part { ty, offset } = part;
        let count = count_in(structs, &ty);
        Frame {
            ty,
            offset,
            count: Some(count),
            next: 0,
        }
    }

    /// An array without size.
    pub fn open(ty: CType) -> Frame
        ensures { frame_tree result ≡ objects.open_frame (ctype_tree ty) }
    {
        Frame {
            ty,
            offset: 0,
            count: None,
            next: 0,
        }
    }

    /// Whether all its parts are filled.
    pub(crate) fn is_full(&self) -> bool
        ensures { result ≡ objects.is_full (frame_tree self.now) }
    {
        match self.count {
            None => false,
            Some(count) => count <= self.next,
        }
    }

    /// The next part.
    pub(crate) fn part(&self, structs: &StructDefs) -> Result<Part, NoMemory>
        ensures { IfOk result (λ part. part_tree part ≡ objects.part_of (map structdef_tree structs.now) (frame_tree self.now)) }
    {
        part_at(structs, &self.ty, self.offset, self.next)
    }

    /// The next part is filled, or begun.
    pub(crate) fn pass(&mut self) -> Result<(), NoMemory>
        ensures { OnOk result (frame_tree self.new ≡ objects.filled (frame_tree self.old)) }
    {
        match self.next.checked_add(1) {
            None => Err(NoMemory),
            Some(next) => {
                self.next = next;
                Ok(())
            }
        }
    }
}
