// The questions on one list: a shape, the points of a sweep, a ring. Callers ask the crate `questions`.
#![tactic(auto)]

pub mod boxing;
pub mod rings;
mod sweeping;

ghost use Rattle.std.specs.Prelude.{◌≡◌, ◌<◌, length};
ghost use Rattle.plane.specs.Point.{point};
ghost use Rattle.plane.specs.Floor.{on};
ghost use Rattle.plane.specs.Question.{reply, output, ask_judge, ask_furthest, ask_mirror, ask_sweep, ask_length};
ghost use Rattle.plane.specs.Question.{ask_width};
ghost use Rattle.answers.specs.Answer.{of_answer, of_furthest, of_length, of_width, of_area};
ghost use Rattle.area.specs.Area.{ask_area};

use answers::{Answer, Face, Length, OnFloor, Refusal, Width};
use polygon::point::Point;
use polygon::{corners, opposite};

// Whether the list is a shape, and how many corners it has. A point and a segment are shapes. Refused: an empty or odd
// list, too many corners, a coordinate out of range, two equal corners or a broken left rule (with the first edge, then
// the first corner, that breaks it; three corners in line do), and a list begun at another corner than the lowest,
// leftmost one.
// Ruled out: consecutive turns only; one corner fewer; positions swapped.
pub fn judge(list: &[i32], floor: u16) -> Answer<usize>
    ensures { of_answer result ≡ reply (ask_judge (on list.now floor)) }
{
    admission::admit(list, 1)?;
    Ok(OnFloor {
        answer: corners::count(list),
        floor,
    })
}

// The corners that are furthest in the direction (u, v): the first and the last, counterclockwise, of those with the
// greatest u·x + v·y, and that value. They are one or two neighbours: where one corner is furthest alone, as that of a
// point always is, it is given twice; the last and the first of the list are given in this order; of a segment that
// lies across the direction 0 and 1. Refused: 1 to 5, then the direction (0, 0) and one with a part out of range, then
// one whose parts have a common divisor above 1: of directions that point the same way one is answered.
// Ruled out: segment taken over the end; smallest position over the end; last position on a tie; upright direction
// refused; eleven and twelve exchanged.
pub fn furthest(list: &[i32], floor: u16, u: i32, v: i32) -> Answer<Face>
    ensures { of_furthest result ≡ reply (ask_furthest (on list.now floor) (point u v)) }
{
    admission::admit(list, 1)?;
    admission::admit_direction(u, v)?;
    Ok(OnFloor {
        answer: direction::face_towards(list, Point { x: u, y: v }),
        floor,
    })
}

// Writes the mirror image, the shape of all (-x, -y), at the front of the output, and answers how many corners it has:
// as many as the list. All after the image is kept. Refused, with the output as it was: 1 to 5, then an output that
// holds fewer numbers than the image.
// Ruled out: mirror begun at the old start; output left alone; coordinates swapped; tail cleared.
pub fn mirror(list: &[i32], floor: u16, out: &mut [i32]) -> Answer<usize>
    ensures { (of_answer result ≡ reply (ask_mirror (on list.now floor) out.old))
        × (out.new ≡ output (ask_mirror (on list.now floor) out.old)) }
{
    admission::admit(list, 1)?;
    if out.len() < list.len() {
        return Err(Refusal::Room);
    }
    opposite::mirror(list, out);
    Ok(OnFloor {
        answer: corners::count(list),
        floor,
    })
}

// Writes the shape of up to as many points as a sweep may have, in any order, at the front of the output, and answers
// how many corners it has. A point that is repeated counts once in the shape, and one in line between two others is no
// corner of it; points that are all equal make a point, and points in one line a segment. Refused, with the output as
// it was: 1 to 3, points counted before repeats are dropped, and then an output that is too small.
// Ruled out: points in line kept; repeats kept; repeats not counted; output written before the room is known.
pub fn sweep(list: &[i32], floor: u16, out: &mut [i32]) -> Answer<usize>
    ensures { (of_answer result ≡ reply (ask_sweep (on list.now floor) out.old))
        × (out.new ≡ output (ask_sweep (on list.now floor) out.old)) }
{
    admission::admit_points(list)?;
    sweeping::sweep(list, floor, out)
}

// The greatest squared distance between two corners, and the positions of two corners that are so far apart. Of several
// such pairs: the smallest first position, then the smallest second. A point answers 0 at 0, 0, and a segment its own
// two corners. Refused: 1 to 5.
// Ruled out: ties to the larger position; first position given twice; search turned on distance.
pub fn length(list: &[i32], floor: u16) -> Answer<Length>
    ensures { of_length result ≡ reply (ask_length (on list.now floor)) }
{
    admission::admit(list, 1)?;
    Ok(OnFloor {
        answer: measure::furthest_pair(list),
        floor,
    })
}

// Returns twice the area, which is a whole number: 0 for a point and a segment. Refused: 1 to 5.
// Ruled out: first edge left out; outline not closed.
pub fn area(list: &[i32], floor: u16) -> Answer<u64>
    ensures { of_area result ≡ reply (ask_area (on list.now floor)) }
{
    admission::admit(list, 1)?;
    Ok(OnFloor {
        answer: area::twice_area(list),
        floor,
    })
}

// The edge across which the shape is narrowest, the corner furthest from it, that corner's turn, the edge's squared
// length, and the width rounded down. Edges compare by turn·turn/squared as exact fractions. Of several such edges the
// smallest position; of two corners equally far from it, as where the opposite edge is parallel, the smallest position.
// Refused: 1 to 5, then a point and a segment.
// Ruled out: later edge on a tie; widths compared after rounding down; rounded width one too large.
pub fn width(list: &[i32], floor: u16) -> Answer<Width>
    ensures { of_width result ≡ reply (ask_width (on list.now floor)) }
{
    admission::admit(list, 1)?;
    if corners::count(list) < 3 {
        return Err(Refusal::Flat);
    }
    Ok(OnFloor {
        answer: measure::narrowest_edge(list),
        floor,
    })
}
