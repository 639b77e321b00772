// Inner functions: which of two distances of shapes is the less. There is none where shapes have a point in common.
ghost use Rattle.std.specs.Prelude.{◌≡◌, true, not};
ghost use Rattle.plane.specs.Point.{points};
ghost use Rattle.plane.specs.Refusal.{Valid};
ghost use Rattle.plane.specs.Distance.{no_more};
ghost use Rattle.neighbours.specs.Spacing.{fraction_of, Sized, HasRatio, Beyond};
ghost use Rattle.extents.specs.Far.{Bounded};

use clearance::measured::{Distance, Ratio};
use polygon::extent;
use polygon::extent::Extent;

// Returns whether the first distance is less than the second, as exact fractions. Equal ones are not less.
// Ruled out: later shape on a tie; rounded distances compared; all rounded distances compared.
pub fn is_less(v: Option<Distance>, w: Option<Distance>) -> bool
    requires { Sized v × Sized w }
    ensures { result ≡ not (no_more (fraction_of w) (fraction_of v)) }
{
    let one = as_ratio(v);
    let other = as_ratio(w);
    wide::fraction_less(one.turn, one.squared, other.turn, other.squared)
}

// Returns whether boxes show that two shapes are no nearer than a distance: the box that is given, and that about a
// shape. False says nothing of the shapes.
pub fn is_far(extent: Extent, shape: &[i32], w: Option<Distance>) -> bool
    requires { Bounded extent × Valid shape.now × Sized w }
    ensures { result ≡ true → Beyond extent (points shape.now) (fraction_of w) }
{
    let ratio = as_ratio(w);
    extents::are_far(extent, extent::extent_of(shape), ratio.turn, ratio.squared)
}

// Returns the distance as a ratio. Shapes that meet are at 0 over 1.
fn as_ratio(w: Option<Distance>) -> Ratio
    requires { Sized w }
    ensures { HasRatio (fraction_of w) result }
{
    match w {
        None => Ratio {
            turn: 0,
            squared: 1,
        },
        Some(distance) => distance.ratio(),
    }
}
