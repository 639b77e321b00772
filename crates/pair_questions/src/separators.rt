// Directions in which one shape is below another (document 02, request W13): the reason that a caller offers for two
// shapes being apart, and a search for one.
ghost use Rattle.std.specs.Prelude.{◌≡◌};
ghost use Rattle.plane.specs.Point.{point};
ghost use Rattle.plane.specs.Floor.{on};
ghost use Rattle.plane.specs.Question.{reply, ask_offer};
ghost use Rattle.separator.specs.Separator.{SeparatorBetween};
ghost use Rattle.answers.specs.Answer.{of_offer, of_separator};

use answers::{Answer, OnFloor};
use polygon::point::Point;

// Whether every corner of the first shape has a strictly lesser u·x + v·y than every corner of the second. Whoever
// offered the direction, the shapes are apart if it is accepted; if it is not, they may be apart all the same. Refused:
// 1 to 5 of the first shape, then of the second; different floors; then the direction (0, 0) and one with a part out of
// range, and one whose parts have a common divisor above 1, even if the shapes are not apart.
// Ruled out: less or equal for less; twelve before thirteen.
pub fn offer(a: &[i32], f: u16, b: &[i32], g: u16, u: i32, v: i32) -> Answer<bool>
    ensures { of_offer result ≡ reply (ask_offer (on a.now f) (on b.now g) (point u v)) }
{
    admission::admit_pair(a, f, b, g)?;
    admission::admit_direction(u, v)?;
    Ok(OnFloor {
        answer: separator::is_below(a, b, Point { x: u, y: v }),
        floor: f,
    })
}

// A direction that is accepted if it is offered, for shapes that are apart; None if they are not. Which of the
// directions it is, is left open. Two points have one, and so have segments in line. Refused: 1 to 5 of the first
// shape, then of the second; different floors.
// Ruled out: normal of the joined edge; direction not divided.
pub fn find(a: &[i32], f: u16, b: &[i32], g: u16) -> Answer<Option<Point>>
    ensures { SeparatorBetween (on a.now f) (on b.now g) (of_separator result) }
{
    admission::admit_pair(a, f, b, g)?;
    Ok(OnFloor {
        answer: separator::find(a, b),
        floor: f,
    })
}
