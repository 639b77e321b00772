// Inner functions: the half walk of a shape, up its right-hand chain and down its left-hand one at once. Two sides of
// the same list are at antipodal corners, so that no mirror image is made.
ghost use Rattle.std.specs.Prelude.{true, ◌≡◌, ◌+◌, ◌^◌, ◌<◌};
ghost use Rattle.plane.specs.Point.{points};
ghost use Rattle.plane.specs.Refusal.{Valid};
ghost use Rattle.plane.specs.Turn.{cross};
ghost use Rattle.polygon.specs.Point.{Small};
ghost use Rattle.calipers.specs.Side.{next_of, onward, Carried};
ghost use Rattle.measure.specs.Half.{goes_right};

use calipers::side;
use calipers::side::Side;
use polygon::corners;

// Two sides on the half walk, and the best so far of what is sought.
#[derive(Clone, Copy)]
pub struct Partway<T> {
    pub s: Side,
    pub t: Side,
    pub best: T,
}

// Whether the next step passes the edge of s, on the right-hand chain, and not that of t, on the left-hand one: it
// comes first by direction, the other turned round. Of two parallel edges the left-hand one is passed first. A chain
// that is passed, at the top or at the end, waits for the other.
pub fn goes_right(top: usize, end: usize, s: Side, t: Side) -> bool
    requires { Small (2 ^ 22) (next_of s) × Small (2 ^ 22) (next_of t) }
    ensures { result ≡ goes_right top end s.at t.at (cross (next_of s) (next_of t)) }
{
    s.at != top && (t.at == end || side::order(s, t) < 0)
}

// Whether both chains have an edge after the next one, the last edge of the list not counted.
pub fn are_inside(top: usize, end: usize, s: Side, t: Side) -> bool
    requires { (s.at < 2 ^ 63) × (t.at < 2 ^ 63) }
    ensures { result ≡ true → (s.at + 1 < top) × (t.at + 2 < end) }
{
    s.at + 1 < top && t.at + 2 < end
}

// One edge on, where at least three are left. The corner there is read and not reached along the edge: no step then
// waits for the one before.
pub fn ahead(list: &[i32], s: Side) -> Side
    requires { Valid list.now × Carried list.now s × (s.at + 2 < s.end) }
    ensures { (result.at ≡ onward (points list.now) s.at) × Carried list.now result }
{
    let corner = corners::corner_at(list, s.at + 1);
    let next = corners::corner_at(list, s.at + 2);
    side::facing(side::standing(s.at + 1, s.end, corner), next)
}
