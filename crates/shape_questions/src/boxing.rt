// The least box about a shape.
ghost use Rattle.std.specs.Prelude.{◌≡◌};
ghost use Rattle.plane.specs.Floor.{on};
ghost use Rattle.plane.specs.Question.{reply};
ghost use Rattle.boxes.specs.Box.{ask_box};
ghost use Rattle.answers.specs.Answer.{of_box};

use answers::{Answer, LeastBox, OnFloor, Refusal};
use polygon::corners;

// The edge whose box has the least perimeter: the box has a side on the edge and touches the shape on all four sides.
// Its sides across and along the edge are height and along, each over the length of the edge, whose square is squared.
// Boxes compare by (height + along)·(height + along)/squared as exact fractions. Of several such edges the smallest
// position. Refused: 1 to 5, then a point and a segment.
pub fn least_box(list: &[i32], floor: u16) -> Answer<LeastBox>
    ensures { of_box result ≡ reply (ask_box (on list.now floor)) }
{
    admission::admit(list, 1)?;
    if corners::count(list) < 3 {
        return Err(Refusal::Flat);
    }
    let found = boxes::least_box(list);
    let answer = LeastBox {
        edge: found.edge,
        height: found.height,
        along: found.along,
        squared: found.squared,
    };
    Ok(OnFloor { answer, floor })
}
