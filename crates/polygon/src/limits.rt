// The limits of documents 01 and 02, and the tests against them. No other code knows the numbers.
ghost use Rattle.std.specs.Prelude.{◌||◌, ◌≡◌, ltb, nat_abs};
ghost use Rattle.std.specs.Int.Signed.{lt_z};
ghost use Rattle.plane.specs.Limits.{max_corners, max_points, max_part, max_floor};
ghost use Rattle.plane.specs.Refusal.{outside as refusal_outside};

pub const MAX_CORNERS: usize = 1_024;

// How many points a sweep may have: the paper's dots.
pub const MAX_POINTS: usize = 1_024;

pub const MAX_COORDINATE: i32 = 1_000_000;

pub const MAX_PART: i32 = 2_000_000;

pub const MAX_FLOOR: u32 = 65_535;

// Enough numbers for the corners of any shape.
pub const SHAPE_NUMBERS: usize = 2 * MAX_CORNERS;

// Enough numbers for the corners of any two shapes.
pub const PAIR_NUMBERS: usize = 2 * SHAPE_NUMBERS;

// Enough numbers for the points of any sweep.
pub const POINTS_NUMBERS: usize = 2 * MAX_POINTS;

// Enough numbers for both chains of the points of any sweep.
pub const CHAINS_NUMBERS: usize = 2 * POINTS_NUMBERS;

// Returns whether this number of corners is more than a shape may have.
// Ruled out: one corner fewer.
pub fn exceeds_corners(n: usize) -> bool
    ensures { result ≡ ltb max_corners n }
{
    MAX_CORNERS < n
}

// Returns whether this number of points is more than a sweep may have.
pub fn exceeds_points(n: usize) -> bool
    ensures { result ≡ ltb max_points n }
{
    MAX_POINTS < n
}

// Whether a number is more than a floor may have.
pub fn exceeds_floor(n: u32) -> bool
    ensures { result ≡ ltb max_floor n }
{
    MAX_FLOOR < n
}

// Whether a coordinate is out of its range.
pub fn outside(z: i32) -> bool
    ensures { result ≡ refusal_outside z }
{
    beyond(-MAX_COORDINATE, MAX_COORDINATE, z)
}

// Whether a part of a direction is out of its range.
pub fn outside_part(z: i32) -> bool
    ensures { result ≡ ltb max_part (nat_abs z) }
{
    beyond(-MAX_PART, MAX_PART, z)
}

// Whether z is less than low or more than high.
fn beyond(low: i32, high: i32, z: i32) -> bool
    ensures { result ≡ (lt_z z low || lt_z high z) }
{
    z < low || high < z
}
