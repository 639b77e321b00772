// Inner functions for the vector sum of two shapes by the caliper walk (document 01, "Sum"). Callers ask the crate
// `questions`.
#![tactic(auto)]

pub mod extent;
pub mod size;
pub mod walk;

ghost use Rattle.std.specs.Prelude.{◌≡◌, ◌*◌, ◌≤◌, length};
ghost use Rattle.plane.specs.Point.{points, numbers};
ghost use Rattle.plane.specs.Refusal.{Valid};
ghost use Rattle.plane.specs.Corner.{shape_of, sums};
ghost use Rattle.plane.specs.Output.{overwritten};

// Writes the shape of all corner-plus-corner points at the front of the output, keeps all after it, and returns how
// many corners it has. It is the walk from the beginning to its end.
pub fn sum(a: &[i32], b: &[i32], out: &mut [i32]) -> usize
    requires { Valid a.now × Valid b.now
        × (2 * length (shape_of (sums (points a.now) (points b.now))) ≤ length out.old) }
    ensures { (result ≡ length (shape_of (sums (points a.now) (points b.now))))
        × (out.new ≡ overwritten (numbers (shape_of (sums (points a.now) (points b.now))))
        out.old) }
{
    walk::walk_on(a, b, 0, 0, out.len(), out).count
}
