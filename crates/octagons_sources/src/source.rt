// Where the bounds of a variable come from.

ghost use Rattle.std.specs.Prelude.{◌≡◌, ℕ, ℤ, Bool, IsTrue};
ghost use Rattle.ext_int.specs.Ext.{Above};
ghost use Rattle.octagons_sources.specs.Sources.{any_source, same_source, source_at, place_index, most_of, IsWide};

use ext_int::{Ext, neg_high};

/// Where the bounds of a variable come from: from the variable at a place, or from its negation where
/// it is `negated`, with a number from `lo` to `hi` added. Where there is no place the number is added to 0.
#[derive(Clone, Copy, PartialEq, Eq)]
pub struct Source {
    pub place: Option<u8>,
    pub negated: bool,
    pub lo: Ext,
    pub hi: Ext,
}

impl Source {
    /// Of a variable that may have any number.
    pub fn any() -> Source
        ensures { result ≡ any_source }
    {
        Source {
            place: None,
            negated: false,
            lo: Ext::Low,
            hi: Ext::High,
        }
    }

    /// Of the variable at the place, as it is.
    pub fn same(place: u8) -> Source
        ensures { result ≡ same_source place }
    {
        Source {
            place: Some(place),
            negated: false,
            lo: Ext::Fin(0),
            hi: Ext::Fin(0),
        }
    }
}

// The source of the variable at a place.
pub(crate) fn source_at(from: &[Source], place: u32) -> Source
    ensures { result ≡ source_at from.now place }
{
    match from.get(place as usize) {
        Some(source) => *source,
        None => Source::any(),
    }
}

// The index from which an index takes its bounds.
pub(crate) fn index_from(source: &Source, p: u32) -> Option<u32>
    ensures { result ≡ place_index source.now.place source.now.negated p }
{
    match source.place {
        Some(k) => {
            let first = 2 * u32::from(k);
            let side = p % 2;
            Some(if source.negated {
                first + (1 - side)
            } else {
                first + side
            })
        }
        None => None,
    }
}

// The most that is added to the number of the index.
pub(crate) fn most_of(source: &Source, p: u32) -> Ext
    ensures { result ≡ most_of source.now p }
{
    if p % 2 == 0 {
        source.hi
    } else {
        neg_high(source.lo)
    }
}

// Whether the range of the source is known to hold a number.
pub(crate) fn is_wide(source: &Source) -> bool
    ensures { IsTrue result → IsWide source.now }
{
    match (source.hi, neg_high(source.lo)) {
        (Ext::Fin(hi), Ext::Fin(down)) => match hi.checked_add(down) {
            Some(length) => length >= 0,
            None => false,
        },
        _ => true,
    }
}
