// Inner functions: where a way enters the walls of a shape.
ghost use Rattle.std.specs.Prelude.{◌&&◌, ◌≡◌, ◌+◌, ◌<◌, ◌^◌, pos, neg_ℤ, length};
ghost use Rattle.std.specs.Int.Signed.{lt_z};
ghost use Rattle.integer.specs.Bound.{Within};
ghost use Rattle.plane.specs.Limits.{max_coordinate};
ghost use Rattle.plane.specs.Point.{points};
ghost use Rattle.plane.specs.Turn.{turn};
ghost use Rattle.plane.specs.Refusal.{Valid};
ghost use Rattle.polygon.specs.Point.{at, Small};
ghost use Rattle.motion.specs.Contact.{edge_normal, past as contact_past, entering, entry, last_entry};
ghost use Rattle.contact.specs.Share.{fraction, Places, last_wall, Met};

use crate::share::Share;
use polygon::point::Point;
use polygon::{corners, point, rules};

// The last entries of a way through the walls of a shape, and of the way back.
#[derive(Clone, Copy)]
pub struct BothWays {
    pub there: Share,
    pub back: Share,
}

// The last entries through the walls of a shape: its edges, and the box about a point or a segment. An edge that both
// ends are past ends the loop: then the way is apart, and each entry is taken to be at the end of its way.
// Ruled out: edge left taken for one entered.
pub fn arrivals(list: &[i32], t: Point, u: Point) -> BothWays
    requires { Valid list.now × Places (at t) (at u) }
    ensures { Met (at t) (at u) (points list.now) result }
{
    let mut there = start(list, t, u);
    let mut back = start(list, u, t);
    for i in 0..corners::count(list) {
        let a = edge_past(list, i, t);
        let b = edge_past(list, i, u);
        if are_past(a, b) {
            return BothWays {
                there: Share::END,
                back: Share::END,
            };
        }
        there = there.later(Share::entering(a, b));
        back = back.later(Share::entering(b, a));
    }
    BothWays { there, back }
}

// Whether two numbers are above 0.
fn are_past(a: i64, b: i64) -> bool
    ensures { result ≡ (lt_z (pos 0) a && lt_z (pos 0) b) }
{
    0 < a && 0 < b
}

// What the edges are added to: the start of the way if there are three or more, and else the entry into the box.
fn start(list: &[i32], t: Point, u: Point) -> Share
    requires { Valid list.now × Places (at t) (at u) }
    ensures { fraction result ≡ last_wall (at t) (at u) (points list.now) 0 }
{
    if 3 <= corners::count(list) {
        Share::START
    } else {
        box_arrival(list, t, u)
    }
}

// The last entry through the four sides of the box about a shape.
// Ruled out: grown segment passed through.
fn box_arrival(list: &[i32], t: Point, u: Point) -> Share
    requires { Valid list.now × Places (at t) (at u) }
    ensures { fraction result ≡ last_entry (entry (at t) (at u) (points list.now)) 4 }
{
    let right = side_entry(list, Point { x: 1, y: 0 }, t, u);
    let left = side_entry(list, Point { x: -1, y: 0 }, t, u);
    let up = side_entry(list, Point { x: 0, y: 1 }, t, u);
    let down = side_entry(list, Point { x: 0, y: -1 }, t, u);
    Share::START.later(right).later(left).later(up).later(down)
}

// The entry through the wall with an outward direction.
fn side_entry(list: &[i32], d: Point, t: Point, u: Point) -> Share
    requires { Valid list.now × Small 1 (at d) × Places (at t) (at u) }
    ensures { fraction result ≡ entering (contact_past (points list.now) (at d) (at t))
        (contact_past (points list.now) (at d) (at u)) }
{
    let far = direction::reach(list, d);
    Share::entering(point::dot(d, t) - far, point::dot(d, u) - far)
}

// How far p is past the edge that leaves corner i, times its length.
fn edge_past(list: &[i32], i: usize, p: Point) -> i64
    requires { Valid list.now × (i < length (points list.now)) × Small max_coordinate (at p) }
    ensures { (result ≡ contact_past (points list.now) (edge_normal (points list.now) i) (at p))
        × Within 8_000_000_000_000 result }
{
    let a = corners::corner_at(list, i);
    let b = corners::corner_at(list, rules::next(corners::count(list), i));
    past(a, b, p)
}

// How far p is to the right of the edge from a to b, times its length.
fn past(a: Point, b: Point, p: Point) -> i64
    requires { Small (2 ^ 21) (at a) × Small (2 ^ 21) (at b) × Small (2 ^ 21) (at p) }
    ensures { result ≡ neg_ℤ (turn (at a) (at b) (at p)) }
{
    point::cross(point::step(a, p), point::step(a, b))
}
