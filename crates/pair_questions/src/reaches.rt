// How far apart two shapes are where they are furthest apart.
ghost use Rattle.std.specs.Prelude.{◌≡◌};
ghost use Rattle.plane.specs.Floor.{on};
ghost use Rattle.plane.specs.Question.{reply};
ghost use Rattle.reach.specs.Greatest.{ask_greatest};
ghost use Rattle.answers.specs.Answer.{of_greatest};

use answers::{Answer, Length, OnFloor};

// The greatest squared distance of a point of one shape and a point of the other, which two corners have, and their
// positions. Of several such pairs: the smallest position in the first shape, then the smallest in the second. Two
// points have their own distance, and a shape and itself its length. Refused: 1 to 5 of the first shape, then of the
// second; different floors.
// Ruled out: later pair on a tie; nearer pair kept; later edge passed first.
pub fn greatest(a: &[i32], f: u16, b: &[i32], g: u16) -> Answer<Length>
    ensures { of_greatest result ≡ reply (ask_greatest (on a.now f) (on b.now g)) }
{
    admission::admit_pair(a, f, b, g)?;
    Ok(OnFloor {
        answer: reach::furthest_corners(a, b),
        floor: f,
    })
}
