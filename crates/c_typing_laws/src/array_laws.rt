// Each array of a typed file has its size at the end.

ghost use Rattle.c_typing_laws.specs.ArrayLaws.{ArraysHaveSizes};

/// No array is left without size at the end of a typed file.
pub fn arrays_have_sizes()
    ensures { ArraysHaveSizes }
{}
