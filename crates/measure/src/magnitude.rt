// Inner function: whole numbers without a sign.
ghost use Rattle.std.specs.Prelude.{◌≡◌, pos, ◌≤ℤ◌};

// A number that is not negative, as an unsigned one.
pub fn magnitude(z: i64) -> u64
    requires { pos 0 ≤ℤ z }
    ensures { z ≡ pos result }
{
    // A cast, and not unsigned_abs: the sign is known, and the walks that call this test nothing more.
    z as u64
}
