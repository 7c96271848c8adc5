// Arrays and structs under way.
#![tactic(auto)]

use crate::frames::Frame;
use crate::items::{Item, is_aggregate, is_text};
use crate::parts::Part;
use c_syntax::StructDefs;
use std::alloc::{AllocError as NoMemory, Global};
use std::mem;

/// Arrays and structs under way, the innermost apart. The outermost is the one whose braces the list is.
#[derive(Drop)]
pub struct Aggregates {
    inner: Frame,
    outer: Vec<Frame>,
}

impl Aggregates {
    ghost use Rattle.std.specs.Prelude.{◌≡◌, ◌+◌, IfOk, IfSome, OnOk, List, ℕ, length, map, option_map};
    ghost use Rattle.c_syntax.specs.Program.{structdef_tree};
    ghost use Rattle.c_typing.specs.CurrentObject as objects;
    ghost use Rattle.c_typing.specs.Inits as inits;
    ghost use Rattle.c_check_fills.specs.RoomViews.{aggregates_tree, frame_tree, part_tree, takes};

    /// The one whose braces the list is, alone.
    pub fn in_braces(alloc: Global, frame: Frame) -> Aggregates
        ensures { aggregates_tree result ≡ objects.in_braces (frame_tree frame) }
    {
        Aggregates {
            inner: frame,
            outer: Vec::new(alloc),
        }
    }

    /// The innermost.
    pub fn inner(&self) -> &Frame
        ensures { frame_tree result.now ≡ (aggregates_tree self.now).inner }
    {
        &self.inner
    }

    /// How many parts of the one whose braces the list is are filled or begun.
    pub fn own_count(&self) -> u64
        ensures { result ≡ (objects.own_frame (aggregates_tree self.now)).next }
    {
        match self.outer.first() {
            None => self.inner.next,
            Some(outermost) => outermost.next,
        }
    }

    /// Whether it is an array of characters whose braces the list is, of which nothing is filled yet.
    pub fn is_text_in_braces(&self) -> bool
        ensures { result ≡ objects.is_text_in_braces (aggregates_tree self.now) }
    {
        self.outer.is_empty() && self.inner.next == 0 && is_text(&self.inner.ty)
    }

    /// Whether it is a scalar whose braces the list is.
    pub fn is_scalar_in_braces(&self) -> bool
        ensures { result ≡ objects.is_scalar_in_braces (aggregates_tree self.now) }
    {
        self.outer.is_empty() && !is_aggregate(&self.inner.ty)
    }

    /// A string literal of so many bytes fills the array whose braces the list is.
    pub fn fill_with_text(&mut self, room: u64)
        ensures { (text : List ℕ) → room ≡ inits.room (aggregates_tree self.old).inner.count text
            → aggregates_tree self.new ≡ inits.full_of (aggregates_tree self.old) text }
    {
        self.inner.count = Some(room);
        self.inner.next = room;
    }

    // Leaves the innermost ones that are full.
    fn leave_full(&mut self)
        ensures { aggregates_tree self.new ≡ objects.current (aggregates_tree self.old) }
    {
        'full: while self.inner.is_full() {
            match self.outer.pop() {
                None => return,
                Some(frame) => self.inner = frame,
            }
        }
    }

    /// The next part, which is then filled or begun, or `None` where all are filled. Once out of memory the aggregates
    /// are only dropped.
    pub fn next_part(&mut self, structs: &StructDefs) -> Result<Option<Part>, NoMemory>
        ensures part { IfOk result (λ part. option_map part_tree part
            ≡ objects.next_part (map structdef_tree structs.now) (aggregates_tree self.old)) }
        ensures after { IfOk result (λ part. IfSome part (λ _. aggregates_tree self.new ≡ objects.after_part (aggregates_tree self.old))) }
    {
        self.leave_full();
        if self.inner.is_full() {
            return Ok(None);
        }
        let part = self.inner.part(structs)?;
        self.inner.pass()?;
        Ok(Some(part))
    }

    /// The part that an item without braces fills where this part is next: the part itself, or the first in it that takes
    /// the item whole. What lies between is begun. Once out of memory the aggregates are only dropped.
    pub fn filled_in(
        &mut self,
        structs: &StructDefs,
        item: &Item,
        part: Part,
    ) -> Result<Part, NoMemory>
        ensures { IfOk result (λ inner. objects.Fills (map structdef_tree structs.now) (takes item.now) (part_tree part)
            (aggregates_tree self.old) (part_tree inner) (aggregates_tree self.new)) }
    {
        let mut part = part;
        // Each turn takes memory, so that the turns end.
        'inward: for _ in 0..usize::MAX {
            if item.takes(&part.ty) {
                return Ok(part);
            }
            part = self.begin(structs, part)?;
        }
        Err(NoMemory)
    }

    // A part is begun: its first part.
    fn begin(&mut self, structs: &StructDefs, part: Part) -> Result<Part, NoMemory>
        ensures part { IfOk result (λ first. part_tree first
            ≡ objects.part_of (map structdef_tree structs.now) (objects.frame_of (map structdef_tree structs.now) (part_tree part))) }
        ensures begun { OnOk result (aggregates_tree self.new
            ≡ objects.begun (map structdef_tree structs.now) (part_tree part) (aggregates_tree self.old)) }
    {
        let mut frame = Frame::of(structs, part);
        let first = frame.part(structs)?;
        frame.pass()?;
        let outer = mem::replace(&mut self.inner, frame);
        self.outer.push(outer)?;
        Ok(first)
    }
}
