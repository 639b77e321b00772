// Inner functions for the least box about a shape (000, section 3.2), by rotating calipers. Callers ask the crate
// `questions`.
#![tactic(auto)]

mod climb;
mod jaws;

ghost use Rattle.std.specs.Prelude.{cond, ◌≡◌, ◌<◌, length};
ghost use Rattle.plane.specs.Point.{points};
ghost use Rattle.plane.specs.Refusal.{Valid};
ghost use Rattle.boxes.specs.Scan.{Taken, Boxes, is_smaller, IsBox};

use jaws::Jaws;
use polygon::corners;

// The box on an edge: the greatest turn over the corners, the spread of the corners' values along the edge, both
// together, and the edge's squared length.
#[derive(Clone, Copy)]
pub struct Boxed {
    pub edge: usize,
    pub height: u64,
    pub along: u64,
    pub half: u64,
    pub squared: u64,
}

// Returns the box of least perimeter with a side on an edge of a shape of three corners or more. Boxes compare by
// half·half/squared as exact fractions. Of several such edges the smallest position. The calipers close on each edge in
// turn, each from where they were at the edge before, so that they go round the shape once.
// Ruled out: later edge on a tie; side across taken twice.
pub fn least_box(list: &[i32]) -> Boxed
    requires { Valid list.now × (2 < length (points list.now)) }
    ensures { IsBox (points list.now) result }
{
    let mut at = jaws::first(list);
    let mut best = measured(list, 0, at);
    for edge in 1..corners::count(list) {
        at = jaws::closed(list, edge, at);
        best = smaller(best, measured(list, edge, at));
    }
    best
}

// Returns the box on an edge, by the corners that the calipers hold.
fn measured(list: &[i32], edge: usize, at: Jaws) -> Boxed
    requires { Taken list.now edge at }
    ensures { (result.edge ≡ edge) × Boxes (points list.now) result }
{
    let height = jaws::height(list, edge, at);
    let along = jaws::along(list, edge, at);
    let squared = jaws::squared(list, edge);
    Boxed {
        edge,
        height,
        along,
        half: height + along,
        squared,
    }
}

// Returns the smaller of two boxes, and the first of two that are as large.
fn smaller(best: Boxed, found: Boxed) -> Boxed
    ensures { result ≡ cond (is_smaller found best) found best }
{
    if wide::fraction_less(found.half, found.squared, best.half, best.squared) {
        found
    } else {
        best
    }
}
