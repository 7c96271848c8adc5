// Which bounds are news.

ghost use Rattle.std.specs.Prelude.{◌<◌};

use ext_int::{Ext, cmp};
use octagons_changes::Relations;
use octagons_pack::{place_of, places_in};
use std::cmp::Ordering;

/// Where the variables of a pack stood before.
#[derive(Clone, Copy)]
pub(crate) struct Places {
    places: [Option<u8>; 24],
}

// Where the variables stood before, if they did and were not set since.
pub(crate) fn places_before(known: &Relations, before: &Relations, set: Option<u64>) -> Places {
    let mut places = places_in(known.pack(), before.pack());
    if let Some(x) = set
        && let Some(k) = place_of(known.pack(), x)
    {
        places[k as usize] = None;
    }
    Places { places }
}

impl Places {
    // Where the variable at a place stood before.
    fn place(&self, k: u32) -> Option<u8> {
        match self.places.get(k as usize) {
            Some(place) => *place,
            None => None,
        }
    }

    // The index that stood for the same variable before.
    fn index(&self, p: u32) -> Option<u32> {
        match self.place(p / 2) {
            Some(k) => Some(2 * u32::from(k) + p % 2),
            None => None,
        }
    }

    // Whether a bound fell.
    pub(crate) fn fell(&self, known: &Relations, before: &Relations, p: u32, q: u32) -> bool {
        match (self.index(p), self.index(q)) {
            (Some(i), Some(j)) => { cmp(known.bound(p, q), before.bound(i, j)) == Ordering::Less }
            _ => false,
        }
    }

    // Whether the own bounds of the variable at a place fell, or are there where it is new or was set.
    pub(crate) fn is_news(&self, known: &Relations, before: &Relations, k: u32) -> bool
        requires { k < 48 }
    {
        let (up, down) = (2 * k, 2 * k + 1);
        match self.place(k) {
            Some(_) => { self.fell(known, before, up, down) || self.fell(known, before, down, up) }
            None => known.bound(up, down) != Ext::High || known.bound(down, up) != Ext::High,
        }
    }
}
