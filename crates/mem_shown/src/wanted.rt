// Offsets in an object that are looked for.

ghost use Rattle.std.specs.Prelude.{◌≡◌, ◌≢◌, ◌⊎◌, ℤ, pos, ◌+ℤ◌, ◌<ℤ◌, ◌^◌, MatchOption, IfSome, IsTrue, false};
ghost use Rattle.c_syntax.specs.Types.{object_tree};
ghost use Rattle.mem_shown.specs.Spans.{InSpan, IsSpan, IsWithin};
ghost use Rattle.mem_shown.specs.Offsets.{Wants, IsAsked, IsHit};

use crate::span::Span;
use c_syntax::Object;

// What is looked for at an object.
#[derive(Clone, Copy)]
pub enum Wanted {
    // Any offset.
    Any,
    // The offset one past the end.
    End,
    // An offset below 0 or past the end.
    Outside,
    // An offset at which so many bytes do not lie in the object.
    NoRoom(u64),
    // An offset that is no multiple of the alignment.
    Unaligned(u64),
    // Any offset in an object that may not be written.
    ReadOnly,
}

// What is looked for: such an offset of the span, in another object than one that may be left out.
#[derive(Clone, Copy)]
pub struct Search {
    pub span: Span,
    pub wanted: Wanted,
    pub except: Option<u64>,
}

impl Search {
    // The offset that is looked for in the object of this number, if there is one.
    pub fn offset(self, number: u64, object: &Object) -> Option<i128>
        requires span { IsSpan self.span }
        requires asked { IsAsked self.wanted }
        ensures { MatchOption result ((d : ℤ) → IsHit self number (object_tree object.now) d → ⊥)
            (λ d. IsHit self number (object_tree object.now) d) }
    {
        if self.leaves_out(number) {
            None
        } else {
            wanted_offset(self.wanted, self.span, object)
        }
    }

    // Whether the object of this number is the one that is left out.
    fn leaves_out(self, number: u64) -> bool
        ensures out { IsTrue result → IfSome self.except (λ e. number ≢ e) → ⊥ }
        ensures within { result ≡ false → IfSome self.except (λ e. number ≢ e) }
    {
        match self.except {
            Some(except) => number == except,
            None => false,
        }
    }
}

// The offset of the span nearest to the object that is what is looked for there, if there is one.
fn wanted_offset(wanted: Wanted, span: Span, object: &Object) -> Option<i128>
    requires span { IsSpan span }
    requires asked { IsAsked wanted }
    ensures { MatchOption result ((d : ℤ) → InSpan span d → Wants wanted (object_tree object.now) d → ⊥)
        (λ d. InSpan span d × Wants wanted (object_tree object.now) d) }
{
    match wanted {
        Wanted::Any => span.nearest(),
        Wanted::End => span.at(i128::from(object.size)),
        Wanted::Outside => span.outside(0, i128::from(object.size)),
        Wanted::NoRoom(size) => span.outside(0, last_start(object.size, size)),
        Wanted::Unaligned(align) => span.unlike(0, align),
        Wanted::ReadOnly => if object.read_only {
            span.nearest()
        } else {
            None
        },
    }
}

// The last offset at which so many bytes lie in an object of a size; -1 where there is none.
fn last_start(object_size: u64, size: u64) -> i128
    ensures beyond { (d : ℤ) → (d <ℤ pos 0) ⊎ (result <ℤ d) → (d <ℤ pos 0) ⊎ (pos object_size <ℤ (d +ℤ pos size)) }
    ensures within { (d : ℤ) → (d <ℤ pos 0) ⊎ (pos object_size <ℤ (d +ℤ pos size)) → (d <ℤ pos 0) ⊎ (result <ℤ d) }
    ensures moderate { IsWithin (2 ^ 126) result }
{
    if size <= object_size {
        i128::from(object_size - size)
    } else {
        -1
    }
}
