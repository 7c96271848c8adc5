// The greatest alignment that divides a number.

ghost use Rattle.std.specs.Prelude.{ℤ, pos, ◌*ℤ◌};
ghost use Rattle.mem_places.specs.Units.{IsUnit};

/// The greatest of 8, 4, 2 and 1 that divides the number.
pub fn unit(n: i128) -> i128
    ensures { IsUnit n result }
{
    if n.rem_euclid(8) == 0 {
        return 8;
    }
    if n.rem_euclid(4) == 0 {
        return 4;
    }
    if n.rem_euclid(2) == 0 {
        return 2;
    }
    1
}

/// The greatest of 8, 4, 2 and 1 that divides so many times the number. The product need not be an `i128`.
pub fn product_unit(count: u64, n: i128) -> i128
    ensures { IsUnit (pos count *ℤ n) result }
{
    let count = i128::from(count % 8);
    let n = n.rem_euclid(8);
    unit(count * n)
}
