// Addresses inside objects, and how they move.
#![tactic(auto)]

ghost use Rattle.std.specs.Prelude.{◌≡◌, ◌&&◌, ◌+ℤ◌, ◌*ℤ◌, ℤ, if◌then◌else◌, int_le, None, Some, map, neg_ℤ, option_map, pos, slice_get};
ghost use Rattle.c_syntax.specs.Types.{object_tree};
ghost use Rattle.c_typing.specs.Constants as constants;
ghost use Rattle.c_check_nodes.specs.Distances.{IsDistance};
ghost use Rattle.c_check_nodes.specs.Views.{address_of};

use c_syntax::Object;

/// What a static pointer holds.
#[derive(Clone, Copy, PartialEq, Eq)]
pub enum Address {
    /// The null pointer.
    Nowhere,
    /// So many bytes behind the start of the object of this number, at most its size.
    Inside { object: u64, offset: u64 },
}

/// The start of the object of this number, where it has static duration.
pub(crate) fn static_object(objects: &[Object], n: u64) -> Option<Address>
    ensures { option_map address_of result ≡ constants.static_object (map object_tree objects.now) n }
{
    match objects.get(n as usize) {
        None => None,
        Some(object) => if object.is_static {
            Some(Address::Inside {
                object: n,
                offset: 0,
            })
        } else {
            None
        },
    }
}

/// An address that is moved by a distance in bytes, where `None` is one that is too far for any object.
pub(crate) fn moved(
    objects: &[Object],
    from: Option<Address>,
    distance: Option<i128>,
) -> Option<Address>
    ensures { (d : ℤ) → IsDistance distance d
        → option_map address_of result ≡ constants.moved_address (map object_tree objects.now) (option_map address_of from) (Some d) }
{
    match from {
        None => None,
        Some(Address::Nowhere) => None,
        Some(Address::Inside { object, offset }) => inside(objects, object, offset, distance),
    }
}

// The address at this distance from an offset in an object.
fn inside(objects: &[Object], n: u64, offset: u64, distance: Option<i128>) -> Option<Address>
    ensures { (d : ℤ) → IsDistance distance d
        → option_map address_of result ≡ constants.inside (map object_tree objects.now) n (pos offset +ℤ d) }
{
    match size_of(objects, n) {
        None => None,
        Some(size) => inside_object(size, n, offset, distance),
    }
}

// The size of the object of this number.
fn size_of(objects: &[Object], n: u64) -> Option<u64>
    ensures { result ≡ option_map (λ object. object.size) (slice_get (map object_tree objects.now) n) }
{
    match objects.get(n as usize) {
        None => None,
        Some(object) => Some(object.size),
    }
}

// The same in an object of this size, from its start to one past its end.
fn inside_object(size: u64, n: u64, offset: u64, distance: Option<i128>) -> Option<Address>
    ensures { (d : ℤ) → IsDistance distance d → option_map address_of result
        ≡ (if int_le (pos 0) (pos offset +ℤ d) && int_le (pos offset +ℤ d) (pos size) then Some (constants.Inside n (pos offset +ℤ d)) else None) }
{
    match distance {
        None => None,
        Some(distance) => at_distance(size, n, offset, distance),
    }
}

// The same, where the distance is a number of the code.
fn at_distance(size: u64, n: u64, offset: u64, distance: i128) -> Option<Address>
    ensures { option_map address_of result
        ≡ (if int_le (pos 0) (pos offset +ℤ distance) && int_le (pos offset +ℤ distance) (pos size)
        then Some (constants.Inside n (pos offset +ℤ distance)) else None) }
{
    let start = i128::from(offset);
    if distance < -start {
        return None;
    }
    if i128::from(size) - start < distance {
        return None;
    }
    Some(Address::Inside {
        object: n,
        offset: (start + distance) as u64,
    })
}

/// An address that is moved by a number of elements of this size.
pub(crate) fn moved_forward(
    objects: &[Object],
    from: Option<Address>,
    element: u64,
    count: Option<i128>,
) -> Option<Address>
    ensures { option_map address_of result
        ≡ constants.moved_address (map object_tree objects.now) (option_map address_of from) (constants.elements element count) }
{
    match count {
        None => None,
        Some(count) => moved(objects, from, product(element, count)),
    }
}

/// An address that is moved back by a number of elements of this size.
pub(crate) fn moved_back(
    objects: &[Object],
    from: Option<Address>,
    element: u64,
    count: Option<i128>,
) -> Option<Address>
    ensures { option_map address_of result
        ≡ constants.moved_address (map object_tree objects.now) (option_map address_of from)
        (option_map neg_ℤ (constants.elements element count)) }
{
    match count {
        None => None,
        Some(count) => moved(objects, from, opposite(product(element, count))),
    }
}

// The bytes of so many elements.
fn product(element: u64, count: i128) -> Option<i128>
    ensures { IsDistance result (pos element *ℤ count) }
{
    i128::from(element).checked_mul(count)
}

// The same distance back.
fn opposite(distance: Option<i128>) -> Option<i128>
    ensures { (d : ℤ) → IsDistance distance d → IsDistance result (neg_ℤ d) }
{
    match distance {
        None => None,
        Some(distance) => distance.checked_neg(),
    }
}
