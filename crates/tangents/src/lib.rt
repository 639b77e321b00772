// Inner functions for the lines that just touch two shapes (document 02, request W1).
// Callers ask the crate `questions`.
#![tactic(auto)]

mod draws;
mod rest;

ghost use Rattle.std.specs.Prelude.{true, ◌≡◌, ◌<◌, length};
ghost use Rattle.plane.specs.Point.{points};
ghost use Rattle.plane.specs.Refusal.{Valid};
ghost use Rattle.plane.specs.Separation.{apart};
ghost use Rattle.plane.specs.Tangent.{tangent_from, tangent_to};

use polygon::corners;

// A line from a corner of the first shape to a corner of the second, by their positions.
#[derive(Clone, Copy)]
pub struct Line {
    pub from: usize,
    pub to: usize,
}

// How often both ends of a line are moved before all pairs are searched. Most lines take two or three turns.
const TURNS: usize = 8;

// The line that has the first shape on side s and the second on side t, true for the left, of two shapes that are
// apart. A corner on the line counts for either side; of several pairs on the line the nearest is meant. Between
// points it is the line that joins them, and of shapes that all lie in one line it is the same for every kind. Each end
// in turn walks on to where it rests, from a line that is given, until both rest. That line may be any.
// Ruled out: far pair for the near one; sides taken strictly.
pub fn tangent(a: &[i32], b: &[i32], near: Line, s: bool, t: bool) -> Line
    requires { Valid a.now × Valid b.now × (apart (points a.now) (points b.now) ≡ true)
        × (near.from < length (points a.now)) × (near.to < length (points b.now)) }
    ensures { (result.from ≡ tangent_from s t (points a.now) (points b.now))
        × (result.to ≡ tangent_to s t (points a.now) (points b.now)) }
{
    let mut from = near.from;
    let mut to = near.to;
    for _ in 0..TURNS {
        from = rest::settle(a, from, corners::corner_at(b, to), s, !s);
        let end = rest::settle(b, to, corners::corner_at(a, from), !t, t);
        if end == to {
            return Line { from, to };
        }
        to = end;
    }
    searched(a, b, s, t)
}

// The same line. For each corner of the second shape in turn the start walks on to where it rests, until the corner
// rests as well.
fn searched(a: &[i32], b: &[i32], s: bool, t: bool) -> Line
    requires { Valid a.now × Valid b.now × (apart (points a.now) (points b.now) ≡ true) }
    ensures { (result.from ≡ tangent_from s t (points a.now) (points b.now))
        × (result.to ≡ tangent_to s t (points a.now) (points b.now)) }
{
    let mut from = 0;
    let mut to = 0;
    // A loop, and no range: some corner rests, so that nothing is left to return after the last one.
    loop {
        from = rest::settle(a, from, corners::corner_at(b, to), s, true);
        let Some(_) = rest::better(b, to, corners::corner_at(a, from), !t) else {
            return Line { from, to };
        };
        to += 1;
    }
}
