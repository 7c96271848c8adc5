// A range for each temporary.

ghost use Rattle.std.specs.Prelude.{◌≡◌, ℕ, ℤ, ◌<◌, IsTrue, false, IfOk, length, replicate, slice_set};
ghost use Rattle.num_api.specs.Ranges.{InRange, hull};
ghost use Rattle.mem_temps.specs.Ranges.{range_at, is_all, knows};

use ext_int::{max, min};
use num_api::Range;
use std::alloc::{AllocError as NoMemory, Global};
use std::marker::Model;

/// Ranges of temporaries, by their numbers.
#[derive(Drop)]
pub struct Ranges {
    items: Vec<Range>,
}

impl Model for Ranges {
    ghost use Rattle.std.specs.Prelude.{List};
    ghost use Rattle.num_api.specs.declared.message.Range.{Range};

    ghost Value = { List Range };

    ghost view = { λ l. l.items.items };
}

/// Whether each number of the second range is one of the first.
pub fn holds_all(r: Range, s: Range) -> bool
    ensures yes { IsTrue result → (n : ℤ) → InRange s n → InRange r n }
    ensures no { result ≡ false → is_all r ≡ false }
{
    min(r.lo, s.lo) == r.lo && max(r.hi, s.hi) == r.hi
}

impl Ranges {
    /// So many times this range.
    pub fn repeated(alloc: Global, count: usize, range: Range) -> Result<Ranges, NoMemory>
        ensures { IfOk result (λ ranges. ranges ≡ replicate count range) }
    {
        let items = vec![in alloc; range; count]?;
        Ok(Ranges { items })
    }

    /// The same ranges once more.
    pub fn copy(&self) -> Result<Ranges, NoMemory>
        ensures { IfOk result (λ ranges. ranges ≡ self.now) }
    {
        let items = self.items.clone()?;
        Ok(Ranges { items })
    }

    /// The range of a temporary; all numbers where there is none.
    pub fn at(&self, temp: u64) -> Range
        ensures { result ≡ range_at self.now temp }
    {
        match self.items.get(temp as usize) {
            Some(range) => *range,
            None => Range::all(),
        }
    }

    /// Gives a temporary that is there another range.
    pub fn put(&mut self, temp: u64, range: Range)
        ensures { self.new ≡ slice_set self.old temp range }
    {
        let temp = temp as usize;
        if temp < self.items.len() {
            self.items[temp] = range;
        }
    }

    /// How many temporaries there are.
    pub fn len(&self) -> usize
        ensures { result ≡ length self.now }
    {
        self.items.len()
    }

    /// Whether each number of the other ranges is one of these.
    pub fn covers(&self, other: &Ranges) -> bool
        ensures yes { IsTrue result → (d : ℕ) (n : ℤ) → InRange (range_at other.now d) n → InRange (range_at self.now d) n }
        ensures no { result ≡ false → IsTrue (knows self.now) }
    {
        for temp in 0..self.len() as u64 {
            if !holds_all(self.at(temp), other.at(temp)) {
                return false;
            }
        }
        true
    }

    /// Gives each temporary the numbers of both ranges.
    pub fn join(&mut self, other: &Ranges)
        ensures size { length self.new ≡ length self.old }
        ensures hulls { (d : ℕ) → d < length self.old → range_at self.new d ≡ hull (range_at self.old d) (range_at other.now d) }
    {
        for temp in 0..self.len() as u64 {
            let range = self.at(temp).hull(other.at(temp));
            self.put(temp, range);
        }
    }
}
