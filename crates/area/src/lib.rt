// Inner functions for the area of a shape (002). Callers ask the crate `questions`.
#![tactic(auto)]

ghost use Rattle.std.specs.Prelude.{◌≡◌, ◌<◌, pos, length};
ghost use Rattle.plane.specs.Point.{points, corner};
ghost use Rattle.plane.specs.Refusal.{Valid, InRange};
ghost use Rattle.plane.specs.Turn.{cross};
ghost use Rattle.area.specs.Area.{twice_area};

use polygon::{corners, point};

// Returns twice the area: the cross products of neighbouring corners, once round. No partial sum has more than 60 bits.
// Ruled out: first edge left out; outline not closed.
pub fn twice_area(list: &[i32]) -> u64
    requires { Valid list.now }
    ensures { twice_area (points list.now) ≡ pos result }
{
    let n = corners::count(list);
    let mut sum = cross_at(list, n - 1, 0);
    for i in 0..n - 1 {
        sum += cross_at(list, i, i + 1);
    }
    sum.unsigned_abs()
}

// Returns the cross product of two corners.
fn cross_at(list: &[i32], i: usize, j: usize) -> i64
    requires { (i < length (points list.now)) × (j < length (points list.now)) × InRange list.now }
    ensures { result ≡ cross (corner (points list.now) i) (corner (points list.now) j) }
{
    point::cross(corners::corner_at(list, i), corners::corner_at(list, j))
}
