// The questions on two or three lists. Callers ask the crate `questions`.
#![tactic(auto)]

pub mod changes;
mod merging;
pub mod reaches;
pub mod separators;

ghost use Rattle.std.specs.Prelude.{◌≡◌};
ghost use Rattle.plane.specs.Floor.{on};
ghost use Rattle.plane.specs.Question.{reply, output, ask_sum, ask_merge, ask_grow, ask_relation, ask_inside};
ghost use Rattle.plane.specs.Question.{ask_clearance};
ghost use Rattle.plane.specs.Question.{ask_tangents};
ghost use Rattle.answers.specs.Answer.{of_answer, of_relation, of_inside, of_clearance, of_tangents, of_passage};
ghost use Rattle.passage.specs.Passage.{ask_passage};

use answers::{Answer, Distance, Lane, Line, OnFloor, Refusal, Relation, Tangents};
use polygon::peak;
use separation::differences;
use sums::size;

// Writes the shape of all corner-plus-corner points at the front of the output, and answers how many corners it has.
// Edges of equal direction make one step, so no three corners of the answer are in line. Refused, with the output as it
// was: 1 to 5 of the first shape, then of the second; different floors; then an answer of too many corners, one out of
// range, and too small an output. On success all after the written numbers is kept.
// Ruled out: parallel corners kept; segment passed once; origin for every sum; second shape judged first; too
// large a sum written.
pub fn sum(a: &[i32], f: u16, b: &[i32], g: u16, out: &mut [i32]) -> Answer<usize>
    ensures { (of_answer result ≡ reply (ask_sum (on a.now f) (on b.now g) out.old))
        × (out.new ≡ output (ask_sum (on a.now f) (on b.now g) out.old)) }
{
    admission::admit_pair(a, f, b, g)?;
    let n = size::reckon(a, b, out.len());
    delivery::fits(n, size::is_far(a, b), out.len())?;
    Ok(OnFloor {
        answer: sums::sum(a, b, out),
        floor: f,
    })
}

// Writes the shape of both corner lists taken together at the front of the output, and answers how many corners it has.
// The shapes may overlap, lie one in the other, share corners or edges. Refused, with the output as it was: 1 to 5 of
// the first shape, then of the second; different floors; then an answer of too many corners, and too small an output.
// No corner of the answer is out of range, since each is a corner of one of the two.
// Ruled out: points in line kept; second shape forgotten; output written on thirteen.
pub fn merge(a: &[i32], f: u16, b: &[i32], g: u16, out: &mut [i32]) -> Answer<usize>
    ensures { (of_answer result ≡ reply (ask_merge (on a.now f) (on b.now g) out.old))
        × (out.new ≡ output (ask_merge (on a.now f) (on b.now g) out.old)) }
{
    admission::admit_pair(a, f, b, g)?;
    merging::merge(a, b, f, out)
}

// Writes the obstacle grown by the cart's outline at the front of the output, and answers how many corners it has: the
// shape of all obstacle-corner minus cart-corner points. The outline's corners are relative to the cart's own origin; a
// cart whose origin is at a place meets the obstacle exactly if that place is a point of the grown one. Either may
// be a point or a segment. Refused, with the output as it was: 1 to 5 of the obstacle, then of the cart; different
// floors; then an answer of too many corners, one out of range, and too small an output. On success all after the
// written numbers is kept.
// Ruled out: cart not mirrored; obstacle mirrored.
pub fn grow(obstacle: &[i32], f: u16, cart: &[i32], g: u16, out: &mut [i32]) -> Answer<usize>
    ensures { (of_answer result ≡ reply (ask_grow (on obstacle.now f) (on cart.now g) out.old))
        × (out.new
        ≡ output (ask_grow (on obstacle.now f) (on cart.now g) out.old)) }
{
    admission::admit_pair(obstacle, f, cart, g)?;
    let top = peak::top(cart);
    let n = differences::reckon(obstacle, cart, top, out.len());
    delivery::fits(n, differences::is_far(obstacle, cart), out.len())?;
    Ok(OnFloor {
        answer: differences::write(obstacle, cart, top, out),
        floor: f,
    })
}

// Whether the shapes are apart, touching or overlapping. Equal points touch, and so do segments in line that share a
// point, and segments of which one ends on the other; segments that cross overlap. A point or a segment that meets a
// polygon touches it if it meets the rim only, and overlaps it otherwise. A polygon overlaps itself and every polygon
// that is inside it. Refused: 1 to 5 of the first shape, then of the second; different floors.
// Ruled out: touching read as apart; segments in line by normals only.
pub fn relation(a: &[i32], f: u16, b: &[i32], g: u16) -> Answer<Relation>
    ensures { of_relation result ≡ reply (ask_relation (on a.now f) (on b.now g)) }
{
    admission::admit_pair(a, f, b, g)?;
    Ok(OnFloor {
        answer: separation::relation(a, b),
        floor: f,
    })
}

// Whether the first shape is inside the second: in no direction does it reach further. A shape is inside itself, and so
// is one that only reaches the other's rim; inside a point is that point alone, inside a segment what lies on it.
// Refused: 1 to 5 of the first shape, then of the second; different floors.
// Ruled out: shape not inside itself; inside the other way round.
pub fn inside(a: &[i32], f: u16, b: &[i32], g: u16) -> Answer<bool>
    ensures { of_inside result ≡ reply (ask_inside (on a.now f) (on b.now g)) }
{
    admission::admit_pair(a, f, b, g)?;
    Ok(OnFloor {
        answer: separation::inside(a, b),
        floor: f,
    })
}

// Where two shapes are nearest, and how near: the least distance between any point of one and any point of the other.
// None if they are not apart. Either two corners, or a corner and an edge that it is over, strictly between its
// ends. On a tie two corners go first, then a corner of the first shape, then one of the second; each by the smallest
// positions. Two points have their own distance. Refused: 1 to 5 of the first shape, then of the second; different
// floors.
// Ruled out: clearance where shapes touch; foot at the end counted as inside; ties the other way; only one edge of a
// parallel pair tried; rounded up.
pub fn clearance(a: &[i32], f: u16, b: &[i32], g: u16) -> Answer<Option<Distance>>
    ensures { of_clearance result ≡ reply (ask_clearance (on a.now f) (on b.now g)) }
{
    admission::admit_pair(a, f, b, g)?;
    Ok(OnFloor {
        answer: clearance::between(a, b),
        floor: f,
    })
}

// Whether a cart may pass straight between two obstacles, without turning, and how: the direction (u, v) across the
// way, its parts with no common divisor above 1, in which the right obstacle is below and the left one above; where the
// cart's origin stays, at values strictly between low and high in that direction; and the width of that in millimetres,
// rounded down. No other direction has as much room. None if in every direction the gap is at most the cart's
// spread: a cart that would touch both obstacles is. The outline's corners are relative to the cart's own origin. Any
// of the three may be a point or a segment. Refused: 1 to 5 of the left obstacle, of the right one, of the cart;
// different floors; then, of the left obstacle grown by the cart and then of the right one, too many corners and a
// corner out of range.
pub fn passage(
    left: &[i32],
    f: u16,
    right: &[i32],
    g: u16,
    cart: &[i32],
    h: u16,
) -> Answer<Option<Lane>>
    ensures { of_passage result ≡ reply
        (ask_passage (on left.now f) (on right.now g) (on cart.now h)) }
{
    admission::admit_three(left, f, right, g, cart, h)?;
    passage::admit_grown(left, cart)?;
    passage::admit_grown(right, cart)?;
    Ok(OnFloor {
        answer: passage::between(left, right, cart),
        floor: f,
    })
}

// The four lines that just touch both of two shapes that are apart, each from a corner of the first to a corner of the
// second: both shapes on the left or on the line; both on the right; the first left and the second right; the reverse.
// A corner on the line counts for either side, and of several pairs on a line the nearest is meant; shapes that all lie
// in one line have four equal answers. Refused: 1 to 5 of the first shape, then of the second; different floors; then
// shapes that touch or overlap.
// Ruled out: far pair for the near one; sides taken strictly; crossing lines exchanged; touching shapes answered.
pub fn tangents(a: &[i32], f: u16, b: &[i32], g: u16) -> Answer<Tangents>
    ensures { of_tangents result ≡ reply (ask_tangents (on a.now f) (on b.now g)) }
{
    admission::admit_pair(a, f, b, g)?;
    let Relation::Apart = separation::relation(a, b) else {
        return Err(Refusal::NotApart);
    };
    let left = tangents::tangent(a, b, Line { from: 0, to: 0 }, true, true);
    let crossing = tangents::tangent(a, b, left, true, false);
    let right = tangents::tangent(a, b, crossing, false, false);
    let reverse = tangents::tangent(a, b, right, false, true);
    let answer = Tangents {
        left,
        right,
        crossing,
        reverse,
    };
    Ok(OnFloor { answer, floor: f })
}
