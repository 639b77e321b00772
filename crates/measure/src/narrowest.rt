// Inner functions: the edge across which a shape is narrowest. When the half walk passes an edge of one chain, it
// is at the corner of the other that is furthest from it.
ghost use Rattle.std.specs.Prelude.{◌≡◌, ◌<◌, length};
ghost use Rattle.plane.specs.Point.{points};
ghost use Rattle.plane.specs.Refusal.{Valid};
ghost use Rattle.measure.specs.Comparison.{Facing};
ghost use Rattle.measure.specs.Partway.{Begins, Sweep};
ghost use Rattle.measure.specs.Scan.{Fits, measured_at, Chosen, Best, Opposed};

use crate::half::Partway;
use crate::{half, magnitude};
use calipers::side::Side;
use calipers::{edges, side};
use polygon::{corners, peak};

// An edge, a corner on the way round that is furthest from it, that corner's turn and the edge's squared length.
#[derive(Clone, Copy)]
pub struct Across {
    pub edge: usize,
    pub corner: usize,
    pub turn: u64,
    pub squared: u64,
}

// The first of all edges with the least width. Before any is measured, the width is 1/0.
pub fn narrowest(list: &[i32]) -> Across
    requires { Valid list.now × (2 < length (points list.now)) }
    ensures { Best list.now result }
{
    let top = peak::top(list);
    let end = edges::sides(list);
    let from = stride(list, top, end);
    let mut s = from.s;
    let mut t = from.t;
    let mut best = from.best;
    while s.at + t.at < top + end {
        if half::goes_right(top, end, s, t) {
            best = narrower(best, measured(s, t));
            s = side::next(list, s, false);
        } else {
            best = narrower(best, measured(t, s));
            t = side::next(list, t, false);
        }
    }
    best
}

// The half walk as long as both chains have edges left: one branch by the sign, and no test for the end of a chain.
fn stride(list: &[i32], top: usize, end: usize) -> Partway<Across>
    requires { Begins list.now top end × (2 < length (points list.now)) }
    ensures { Sweep list.now top end result.s result.t result.best }
{
    let mut s = side::side_at(list, 0);
    let mut t = side::side_at(list, top);
    let mut best = Across {
        edge: 0,
        corner: 0,
        turn: 1,
        squared: 0,
    };
    // A loop beside that of `longest`: an edge is measured before it is passed, and a pair of corners after the step.
    while half::are_inside(top, end, s, t) {
        if side::order(s, t) < 0 {
            best = narrower(best, measured(s, t));
            s = half::ahead(list, s);
        } else {
            best = narrower(best, measured(t, s));
            t = half::ahead(list, t);
        }
    }
    Partway { s, t, best }
}

// The edge of s, measured at the corner of t.
fn measured(s: Side, t: Side) -> Across
    requires { Fits s t }
    ensures { result ≡ measured_at s t }
{
    let turn = magnitude::magnitude(side::turn(s, t));
    let squared = magnitude::magnitude(side::span(s));
    Across {
        edge: s.at,
        corner: t.at,
        turn,
        squared,
    }
}

// The narrower of two edges, and the earlier of two that are as wide.
fn narrower(best: Across, found: Across) -> Across
    ensures { Chosen best found result }
{
    if wide::fraction_less(best.turn, best.squared, found.turn, found.squared) {
        return best;
    }
    if wide::fraction_less(found.turn, found.squared, best.turn, best.squared) {
        return found;
    }
    if found.edge < best.edge { found } else { best }
}

// The first corner that is furthest from an edge, by one that is. Where the edge opposite is parallel two are, the one
// after the other.
pub fn first_facing(list: &[i32], edge: usize, corner: usize) -> usize
    requires { Opposed list.now edge corner }
    ensures { Facing (points list.now) edge result }
{
    let end = edges::round(list, edge + 1);
    let far = edges::round(list, corner);
    let turn = corners::turn_at(list, edge, end, far);
    if turn <= corners::turn_at(list, edge, end, 0) {
        return 0;
    }
    let before = far - 1;
    if turn <= corners::turn_at(list, edge, end, before) {
        before
    } else {
        far
    }
}
