// Inner functions: how far apart the corners of a candidate are.
ghost use Rattle.std.specs.Prelude.{◌≡◌, ◌^◌, ◌<◌, pos, length, ◌<ℤ◌};
ghost use Rattle.plane.specs.Point.{points, corner};
ghost use Rattle.plane.specs.Refusal.{InRange};
ghost use Rattle.plane.specs.Measure.{squared, edge_squared};
ghost use Rattle.plane.specs.Clearance.{corners, turn_on, numbers_of};
ghost use Rattle.clearance.specs.Answer.{candidate_of, values_of, ratio_of, Measurable, HasSize};

use crate::reach::Pair;
use measure::magnitude;
use polygon::{corners, point, rules};

// Two corners, their squared distance, and the distance rounded down; or a corner of the one shape and an edge of the
// other, the size of the corner's turn against the edge, the edge's squared length, and the distance rounded down.
#[derive(Clone, Copy)]
pub enum Distance {
    Corners {
        first: usize,
        second: usize,
        squared: u64,
        rounded: u64,
    },
    OnSecond {
        corner: usize,
        edge: usize,
        turn: u64,
        squared: u64,
        rounded: u64,
    },
    OnFirst {
        corner: usize,
        edge: usize,
        turn: u64,
        squared: u64,
        rounded: u64,
    },
}

// A distance as the root of turn·turn/squared.
#[derive(Clone, Copy)]
pub struct Ratio {
    pub turn: u64,
    pub squared: u64,
}

impl Distance {
    // Two corners at the squared distance d are at d·d/d.
    pub fn ratio(self) -> Ratio
        ensures { result ≡ ratio_of self }
    {
        match self {
            Distance::Corners { squared, .. } => Ratio {
                turn: squared,
                squared,
            },
            Distance::OnSecond { turn, squared, .. } | Distance::OnFirst { turn, squared, .. } => {
                Ratio { turn, squared }
            }
        }
    }
}

// The height of a corner over an edge: the size of its turn, the squared length of the edge, and the root rounded down.
#[derive(Clone, Copy)]
pub struct Height {
    pub turn: u64,
    pub squared: u64,
    pub rounded: u64,
}

// The numbers of a candidate.
// Ruled out: rounded up.
pub fn measured(a: &[i32], b: &[i32], pair: Pair) -> Distance
    requires { InRange a.now × InRange b.now
        × Measurable (points a.now) (points b.now) (candidate_of pair) }
    ensures { values_of result ≡ numbers_of (points a.now) (points b.now) (candidate_of pair) }
{
    match pair {
        Pair::Corners { first, second } => between(a, first, b, second),
        Pair::OnSecond { corner, edge } => {
            let found = across(a, corner, b, edge);
            Distance::OnSecond {
                corner,
                edge,
                turn: found.turn,
                squared: found.squared,
                rounded: found.rounded,
            }
        }
        Pair::OnFirst { corner, edge } => {
            let found = across(b, corner, a, edge);
            Distance::OnFirst {
                corner,
                edge,
                turn: found.turn,
                squared: found.squared,
                rounded: found.rounded,
            }
        }
    }
}

// Corner i of a and corner j of b. The root of d is that of d·d/d.
fn between(a: &[i32], i: usize, b: &[i32], j: usize) -> Distance
    requires { (i < length (points a.now)) × (j < length (points b.now)) × InRange a.now × InRange b.now
        × (pos 0 <ℤ squared (corner (points a.now) i) (corner (points b.now) j)) }
    ensures { values_of result ≡ numbers_of (points a.now) (points b.now) (corners i j) }
{
    let squared = magnitude::magnitude(point::squared(
        corners::corner_at(a, i),
        corners::corner_at(b, j),
    ));
    Distance::Corners {
        first: i,
        second: j,
        squared,
        rounded: wide::root_of_fraction(squared, squared),
    }
}

// Corner c of a against edge e of b.
fn across(a: &[i32], c: usize, b: &[i32], e: usize) -> Height
    requires { (c < length (points a.now)) × (e < length (points b.now)) × InRange a.now × InRange b.now
        × (pos 0 <ℤ edge_squared (points b.now) e) }
    ensures { HasSize (turn_on (points b.now) e (corner (points a.now) c))
        (edge_squared (points b.now) e) result }
{
    let from = corners::corner_at(b, e);
    let to = corners::corner_at(b, rules::next(corners::count(b), e));
    let edge = point::step(from, to);
    let turn = point::cross(edge, point::step(from, corners::corner_at(a, c))).unsigned_abs();
    let squared = magnitude::magnitude(point::squared(from, to));
    Height {
        turn,
        squared,
        rounded: wide::root_of_fraction(turn, squared),
    }
}
