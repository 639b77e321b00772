// Inner functions: a shape that a walk goes round, as its list has it or as its mirror image.
ghost use Rattle.std.specs.Prelude.{cond, ◌≡◌, ◌+◌, ◌^◌, ◌<◌, ◌≤◌, List, ℤ, length};
ghost use Rattle.plane.specs.Point.{points};
ghost use Rattle.plane.specs.Refusal.{InRange, Valid};
ghost use Rattle.plane.specs.Forms.{edges};
ghost use Rattle.polygon.specs.Peak.{Peak};
ghost use Rattle.calipers.specs.Side.{onward, Carried};
ghost use Rattle.calipers.specs.Image.{image as image_of};

use crate::side::Side;
use crate::{image, side};

// What a walk asks of a shape. Proofs know the list that the walk goes round, and what must hold for that.
pub trait Round {
    ghost shape: { Self → List ℤ };

    ghost ready: { Self → Type 0 };

    // The side with i edges passed.
    fn side_at(&self, i: usize) -> Side
        requires { ready self.now × (i ≤ length (edges (points (shape self.now)))) }
        ensures { (result.at ≡ i) × (result.end < 2 ^ 62) × Carried (shape self.now) result };

    // One edge on, unless the side waits or has none left.
    fn next(&self, s: Side, waits: bool) -> Side
        requires { ready self.now × Carried (shape self.now) s }
        ensures { (result.at ≡ cond waits s.at (onward (points (shape self.now)) s.at))
            × Carried (shape self.now) result };

    // The same where at least three edges are left: no test of the end is needed.
    fn ahead(&self, s: Side, waits: bool) -> Side
        requires { ready self.now × Carried (shape self.now) s × (s.at + 2 < s.end) }
        ensures { (result.at ≡ cond waits s.at (onward (points (shape self.now)) s.at))
            × Carried (shape self.now) result };
}

// A shape as its list has it.
#[derive(Clone, Copy)]
pub struct Plain<'a> {
    pub list: &'a [i32],
}

impl Round for Plain<'_> {
    ghost shape = { λ s. s.list.now };

    ghost ready = { λ s. InRange s.list.now × (0 < length (points s.list.now)) };

    fn side_at(&self, i: usize) -> Side {
        side::side_at(self.list, i)
    }

    fn next(&self, s: Side, waits: bool) -> Side {
        side::next(self.list, s, waits)
    }

    fn ahead(&self, s: Side, waits: bool) -> Side {
        side::ahead(self.list, s, waits)
    }
}

// The mirror image of a shape whose peak is at position top.
#[derive(Clone, Copy)]
pub struct Mirrored<'a> {
    pub list: &'a [i32],
    pub top: usize,
}

impl Round for Mirrored<'_> {
    ghost shape = { λ s. image_of s.list.now };

    ghost ready = { λ s. Valid s.list.now × Peak (points s.list.now) s.top };

    fn side_at(&self, i: usize) -> Side {
        image::side_at(self.list, self.top, i)
    }

    fn next(&self, s: Side, waits: bool) -> Side {
        image::next(self.list, self.top, s, waits)
    }

    fn ahead(&self, s: Side, waits: bool) -> Side {
        image::ahead(self.list, self.top, s, waits)
    }
}
