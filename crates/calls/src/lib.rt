// The calls of a host in Rust or C: every question, with lists of numbers and floors that are any numbers. A list is
// lent as a pointer and a count. A floor above its limit is refused 13, after the lists and before what the question
// itself refuses. Each call answers a `Reply`: the numbers of the reply that the question's definition states. Four
// questions can be asked on plain bytes too; each of these calls answers one number.
#![tactic(auto)]

mod bytes;
mod lent;
mod logs;
mod pairs;
mod passages;
mod readings;
mod shapes;
mod walks;
mod writing;

ghost use Rattle.std.specs.Prelude.{◌≡◌};
ghost use Rattle.plane.specs.Limits.{max_corners, max_points, max_coordinate, max_part, max_floor};

use polygon::limits;

// Returns 2. The name carries the version: a host that is built for it does not link with an older archive.
#[unsafe(no_mangle)]
pub extern "C" fn cocklesway_version_2() -> u64
    ensures { result ≡ 2 }
{
    2
}

// The limits of every call: corners of a shape, points of a sweep, the size of a coordinate and of a part of a
// direction, and the highest floor.
#[repr(C)]
#[derive(Clone, Copy)]
pub struct Limits {
    pub corners: u64,
    pub points: u64,
    pub coordinate: u64,
    pub part: u64,
    pub floor: u64,
}

// Returns the limits, so that a host copies none.
// Ruled out: numbers told for corners.
#[unsafe(no_mangle)]
pub extern "C" fn cocklesway_limits() -> Limits
    ensures { (result.corners ≡ max_corners) × (result.points ≡ max_points) × (result.coordinate ≡ max_coordinate)
        × (result.part ≡ max_part) × (result.floor ≡ max_floor) }
{
    Limits {
        corners: limits::MAX_CORNERS as u64,
        points: limits::MAX_POINTS as u64,
        coordinate: limits::MAX_COORDINATE as u64,
        part: limits::MAX_PART as u64,
        floor: limits::MAX_FLOOR as u64,
    }
}
