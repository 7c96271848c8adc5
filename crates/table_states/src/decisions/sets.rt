// The sets that calls of `mem_shown` make.

use super::conditions::is_moderate_offset;
use c_syntax::{Pointers, Spot};
use mem_shown::{any_pointer, no_pointer, null_pointer, spot_pointer};
use std::alloc::{AllocError as NoMemory, Global};

/// The set that the words name, if they name one of these.
pub fn made_set(alloc: Global, words: &[&str]) -> Result<Option<Pointers>, NoMemory> {
    match words {
        ["no-pointer"] => Ok(Some(no_pointer(alloc))),
        ["any-pointer"] => Ok(Some(any_pointer(alloc))),
        ["null-pointer"] => Ok(Some(null_pointer(alloc))),
        ["dead-pointer"] => Ok(Some(spot_pointer(alloc, Spot::Dead)?)),
        ["pointer", object, offset] => pointer(alloc, object, offset),
        _ => Ok(None),
    }
}

// The pointer to an offset of an object.
fn pointer(alloc: Global, object: &str, offset: &str) -> Result<Option<Pointers>, NoMemory> {
    let (Ok(object), Ok(offset)) = (object.parse::<u64>(), offset.parse::<i128>()) else {
        return Ok(None);
    };
    if is_moderate_offset(offset) {
        Ok(Some(spot_pointer(alloc, Spot::At(object, offset))?))
    } else {
        Ok(None)
    }
}
