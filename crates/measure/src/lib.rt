// Inner functions for length and width of a shape by rotating calipers (document 01, "Length" and "Width"). Callers ask
// the crate `questions`.
#![tactic(auto)]

mod half;
mod longest;
pub mod magnitude;
mod narrowest;

ghost use Rattle.std.specs.Prelude.{◌<◌, length as list_n_length};
ghost use Rattle.plane.specs.Point.{points};
ghost use Rattle.plane.specs.Refusal.{Valid};
ghost use Rattle.measure.specs.Answer.{IsLength, IsWidth};

// The greatest squared distance between two corners, and their positions.
#[derive(Clone, Copy)]
pub struct Length {
    pub squared: u64,
    pub from: usize,
    pub to: usize,
}

// The edge that a shape is narrowest across, the corner furthest from it, the turn of that corner against the edge, the
// edge's squared length, and the width rounded down.
#[derive(Clone, Copy)]
pub struct Width {
    pub edge: usize,
    pub corner: usize,
    pub turn: u64,
    pub squared: u64,
    pub rounded: u64,
}

// The two corners of a shape that are furthest apart. Of several such pairs: the smallest first position, then the
// smallest second. A point has 0 at 0, 0, and a segment its own two corners.
// Ruled out: ties to the larger position; first position given twice; search turned on distance.
pub fn furthest_pair(list: &[i32]) -> Length
    requires { Valid list.now }
    ensures { IsLength (points list.now) result }
{
    longest::longest(list)
}

// The edge across which a shape of three corners or more is narrowest. Edges compare by turn·turn/squared as exact
// fractions. Of several such edges the smallest position; of two corners equally far from it, as where the opposite
// edge is parallel, the smallest position.
// Ruled out: later edge on a tie; corner after the tie; widths compared after rounding down.
pub fn narrowest_edge(list: &[i32]) -> Width
    requires { Valid list.now × (2 < list_n_length (points list.now)) }
    ensures { IsWidth (points list.now) result }
{
    let best = narrowest::narrowest(list);
    Width {
        edge: best.edge,
        corner: narrowest::first_facing(list, best.edge, best.corner),
        turn: best.turn,
        squared: best.squared,
        rounded: wide::root_of_fraction(best.turn, best.squared),
    }
}
