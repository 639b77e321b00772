// The sum in parts (document 02, request W6): a walk is begun, and each part hands back the next.
ghost use Rattle.std.specs.Prelude.{true, ◌≡◌};
ghost use Rattle.plane.specs.Reply.{NoneApply};
ghost use Rattle.plane.specs.Refusal.{Valid};
ghost use Rattle.plane.specs.Output.{size_rows};
ghost use Rattle.plane.specs.Floor.{on, Same};
ghost use Rattle.plane.specs.Question.{reply, output};
ghost use Rattle.sums.specs.PlaceAfter.{whole_sum, is_place};
ghost use Rattle.parts.specs.Part.{ask_begin, ask_part};
ghost use Rattle.admission.specs.Admission.{Judged};
ghost use Rattle.part_questions.specs.Answer.{of_begun, of_part};
ghost use Rattle.part_questions.specs.Walk.{state_of};

use crate::answer::Part;
use admission::answer::{Answer, OnFloor, Refusal};
use polygon::limits;
use sums::size;

// How far the walk round two shapes is: how many edges of the first and of the second are passed, and over if all
// corners of their sum are written. It is a plain value, which a caller may keep, copy or make up: one that is at no
// place of the sum at hand is refused.
#[derive(Clone, Copy)]
pub struct Walk {
    pub first: usize,
    pub second: usize,
    pub over: bool,
}

// Begins a sum in parts, of a on floor f and b on floor g: the walk for the first of them. Refused as the sum is: 1 to
// 5 of the first shape, then of the second; different floors; then a sum of too many corners, and one out of range. No
// output is asked for yet.
// Ruled out: too large a sum begun; far sum begun.
pub fn begin(a: &[i32], f: u16, b: &[i32], g: u16) -> Answer<Walk>
    ensures { of_begun result ≡ reply (ask_begin (on a.now f) (on b.now g)) }
{
    admission::admit_pair(a, f, b, g)?;
    survey(a, b)?;
    Ok(OnFloor {
        answer: Walk {
            first: 0,
            second: 0,
            over: false,
        },
        floor: f,
    })
}

impl Walk {
    // Writes the next corners of the sum at the front of the output, k or what remains, whichever is less, and answers
    // how many, with the walk after them; all after them is kept. Of 0 corners, and of a walk that is over, there are
    // none, and the walk stays as it is. Refused, with the output as it was: 1 to 5 of the first shape, then of the
    // second; different floors; a walk that is at no place of their sum; then a sum of too many corners, and one out of
    // range; and an output too small for the corners of this call.
    // Ruled out: fourteen after six; thirteen after fourteen; walk handed back unmoved; room asked for the
    // whole sum.
    pub fn part(
        self,
        a: &[i32],
        f: u16,
        b: &[i32],
        g: u16,
        k: usize,
        out: &mut [i32],
    ) -> Answer<Part>
        ensures { (of_part result
            ≡ reply (ask_part (on a.now f) (on b.now g) (state_of self) k out.old))
            × (out.new
            ≡ output (ask_part (on a.now f) (on b.now g) (state_of self) k out.old)) }
    {
        admission::admit_pair(a, f, b, g)?;
        if !sums::walk::is_place(a, b, self.first, self.second, self.over) {
            return Err(Refusal::NotAPlace);
        }
        survey(a, b)?;
        self.write(a, f, b, g, k, out)
    }

    // The same at a place of a sum that is answered, of two shapes on one floor.
    fn write(self, a: &[i32], f: u16, b: &[i32], g: u16, k: usize, out: &mut [i32]) -> Answer<Part>
        requires { Same (on a.now f) (on b.now g) × (is_place a.now b.now (state_of self) ≡ true)
            × NoneApply (size_rows (whole_sum a.now b.now)) }
        ensures { (of_part result
            ≡ reply (ask_part (on a.now f) (on b.now g) (state_of self) k out.old))
            × (out.new
            ≡ output (ask_part (on a.now f) (on b.now g) (state_of self) k out.old)) }
    {
        if self.over || k == 0 {
            let none = Part {
                count: 0,
                walk: self,
            };
            return Ok(OnFloor {
                answer: none,
                floor: f,
            });
        }
        if !size::has_room(a, b, self.first, self.second, k, out.len()) {
            return Err(Refusal::Room);
        }
        let went = sums::walk::walk_on(a, b, self.first, self.second, k, out);
        let walk = Walk {
            first: went.first,
            second: went.second,
            over: went.over,
        };
        Ok(OnFloor {
            answer: Part {
                count: went.count,
                walk,
            },
            floor: f,
        })
    }
}

// Judges the whole sum of two shapes by its size, without writing it: 6, then 7.
fn survey(a: &[i32], b: &[i32]) -> Result<(), Refusal>
    requires { Valid a.now × Valid b.now }
    ensures { Judged (NoneApply (size_rows (whole_sum a.now b.now)))
        (size_rows (whole_sum a.now b.now)) result }
{
    let n = size::reckon(a, b, limits::SHAPE_NUMBERS);
    delivery::sized(n, size::is_far(a, b))
}
