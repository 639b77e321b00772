// Inner functions: lists judged, each once, before a question is asked of them, and the direction of a question.
// Callers ask the crate `questions`.
#![tactic(auto)]

pub mod answer;

ghost use Rattle.std.specs.Prelude.{[], ◌∷◌, ◌≡◌};
ghost use Rattle.plane.specs.Point.{point};
ghost use Rattle.plane.specs.Reply.{NoneApply};
ghost use Rattle.plane.specs.Refusal.{shape_rows, Valid};
ghost use Rattle.plane.specs.Sweep.{point_rows, ValidPoints};
ghost use Rattle.plane.specs.Furthest.{direction_rows};
ghost use Rattle.plane.specs.Floor.{on, pair_rows, floor_row, Same};
ghost use Rattle.admission.specs.Admission.{Judged};
ghost use Rattle.admission.specs.Three.{three_rows, SameThree};

use answer::Refusal;
use polygon::rules;
use polygon::rules::Broken;

// Judges a list that is the first or the second shape of a question: refusals 1 to 5 in their order. A shape is told in
// one pass round its corners; only a list that fails the pass has its edges compared with all corners.
// Ruled out: positions swapped; two for a corner out of range; everything refused.
pub fn admit(list: &[i32], shape: usize) -> Result<(), Refusal>
    ensures { Judged (Valid list.now) (shape_rows shape list.now) result }
{
    if convexity::passes(list) {
        return Ok(());
    }
    blamed(list, shape)
}

// Judges a list by one rule after the other. It is slow on a shape, so only lists that failed the pass come here. It
// has two callers, so that the compiler keeps it out of the code that judges shapes.
fn blamed(list: &[i32], shape: usize) -> Result<(), Refusal>
    ensures { Judged (Valid list.now) (shape_rows shape list.now) result }
{
    if rules::bad_count(list) {
        return Err(Refusal::Count { shape });
    }
    if rules::too_many(list) {
        return Err(Refusal::Corners { shape });
    }
    if rules::some_outside(list) {
        return Err(Refusal::Range { shape });
    }
    if let Some(Broken { edge, corner }) = rules::first_broken(list) {
        return Err(Refusal::Side {
            shape,
            edge,
            corner,
        });
    }
    if rules::bad_start(list) {
        return Err(Refusal::Start { shape });
    }
    Ok(())
}

// Judges the first list, then the second, and then whether they are on one floor. Lists that are no shapes are judged
// again, out of line.
// Ruled out: second shape judged first; other shape blamed; thirteen for a bad second shape; floors not compared.
pub fn admit_pair(a: &[i32], f: u16, b: &[i32], g: u16) -> Result<(), Refusal>
    ensures { Judged (Same (on a.now f) (on b.now g))
        (pair_rows (on a.now f) (on b.now g)) result }
{
    if !convexity::passes(a) {
        return blamed_pair(a, f, b, g);
    }
    if !convexity::passes(b) {
        return blamed_pair(a, f, b, g);
    }
    admit_floors(f, g)
}

// Judges two lists of which one failed the pass.
fn blamed_pair(first: &[i32], f: u16, second: &[i32], g: u16) -> Result<(), Refusal>
    ensures { Judged (Same (on first.now f) (on second.now g))
        (pair_rows (on first.now f) (on second.now g)) result }
{
    admit(first, 1)?;
    blamed(second, 2)?;
    admit_floors(f, g)
}

// Judges three lists, one after the other, and then whether all are on one floor.
pub fn admit_three(a: &[i32], f: u16, b: &[i32], g: u16, c: &[i32], h: u16) -> Result<(), Refusal>
    ensures { Judged
        (SameThree (on a.now f) (on b.now g) (on c.now h))
        (three_rows (on a.now f) (on b.now g) (on c.now h)) result }
{
    admit(a, 1)?;
    admit(b, 2)?;
    admit(c, 3)?;
    admit_floors(f, g)?;
    admit_floors(f, h)
}

// Judges whether two shapes are on one floor: 13.
fn admit_floors(f: u16, g: u16) -> Result<(), Refusal>
    ensures { Judged (f ≡ g) (floor_row f g ∷ []) result }
{
    if f != g {
        return Err(Refusal::Floors);
    }
    Ok(())
}

// Judges the points of a sweep: refusals 1 to 3 in their order. Points are counted as they come, repeats and all. A
// sweep has one list, so that the first shape is blamed.
pub fn admit_points(list: &[i32]) -> Result<(), Refusal>
    ensures { Judged (ValidPoints list.now) (point_rows list.now) result }
{
    if rules::bad_count(list) {
        return Err(Refusal::Count { shape: 1 });
    }
    if rules::too_many_points(list) {
        return Err(Refusal::Corners { shape: 1 });
    }
    if rules::some_outside(list) {
        return Err(Refusal::Range { shape: 1 });
    }
    Ok(())
}

// Judges a direction that a caller gives: 11, then 12. Of directions that point the same way one passes.
// Ruled out: eleven and twelve exchanged; twelve before eleven; one taken for a common divisor.
pub fn admit_direction(u: i32, v: i32) -> Result<(), Refusal>
    ensures { Judged (NoneApply (direction_rows (point u v))) (direction_rows (point u v)) result }
{
    if direction::bad_direction(u, v) {
        return Err(Refusal::Direction);
    }
    if direction::common_divisor(u, v) {
        return Err(Refusal::NotPrimitive);
    }
    Ok(())
}
