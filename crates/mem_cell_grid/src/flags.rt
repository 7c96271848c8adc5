// Marks that are kept together.

ghost use Rattle.std.specs.Prelude.{◌≡◌, ◌&&◌};

// Whether both are set.
pub fn both(a: bool, b: bool) -> bool
    ensures { result ≡ (a && b) }
{
    a && b
}
