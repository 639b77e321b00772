// Inner functions: the corner of the new shape that is furthest from the old one.
ghost use Rattle.std.specs.Prelude.{cond, ◌≡◌, ◌<◌, length};
ghost use Rattle.plane.specs.Point.{points};
ghost use Rattle.plane.specs.Refusal.{Valid};
ghost use Rattle.excess.specs.Excess.{outermost as excess_outermost};
ghost use Rattle.excess.specs.Answer.{HasFar, is_further};

use crate::alone;
use clearance::measured::Ratio;
use polygon::corners;

// A corner's position, and its squared distance from the old shape: turn·turn/squared, as an exact fraction.
#[derive(Clone, Copy)]
pub struct Far {
    pub corner: usize,
    pub ratio: Ratio,
}

// The position of the furthest corner, the smallest of several.
// Ruled out: later corner on a tie.
pub fn outermost(new: &[i32], old: &[i32]) -> usize
    requires { Valid new.now × Valid old.now }
    ensures { result ≡ excess_outermost (points new.now) (points old.now) }
{
    let mut best = distance_of(new, 0, old);
    for i in 1..corners::count(new) {
        best = further(best, distance_of(new, i, old));
    }
    best.corner
}

// How far corner i is; 0 if it is not apart from the old shape.
fn distance_of(new: &[i32], i: usize, old: &[i32]) -> Far
    requires { Valid new.now × Valid old.now × (i < length (points new.now)) }
    ensures { HasFar (points new.now) (points old.now) i result }
{
    match alone::spacing(corners::corner_at(new, i), old) {
        None => Far {
            corner: i,
            ratio: Ratio {
                turn: 0,
                squared: 1,
            },
        },
        Some(found) => Far {
            corner: i,
            ratio: found.ratio(),
        },
    }
}

// The further of two corners, and the first of two that are as far.
fn further(best: Far, found: Far) -> Far
    ensures { result ≡ cond (is_further best found) found best }
{
    let held = best.ratio;
    let new = found.ratio;
    if wide::fraction_less(held.turn, held.squared, new.turn, new.squared) {
        found
    } else {
        best
    }
}
