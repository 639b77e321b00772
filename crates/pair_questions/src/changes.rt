// How far a changed shape reaches beyond the old one: which answers about the old one stay.
ghost use Rattle.std.specs.Prelude.{◌≡◌};
ghost use Rattle.plane.specs.Floor.{on};
ghost use Rattle.plane.specs.Question.{reply};
ghost use Rattle.excess.specs.Excess.{ask_excess};
ghost use Rattle.answers.specs.Answer.{of_excess};

use answers::{Answer, Beyond, OnFloor};

// How far the new shape reaches beyond the old one. None if it reaches nowhere further. Else its corner that is
// furthest from the old shape, the smallest position of several; where the old shape is nearest to that corner, as
// `clearance` says it; and that distance in millimetres, rounded up: a clearance of the old shape from anything is less
// by at most this for the new one. Either may be a point or a segment. Refused: 1 to 5 of the new shape, then of the
// old one; different floors.
pub fn excess(new: &[i32], f: u16, old: &[i32], g: u16) -> Answer<Option<Beyond>>
    ensures { of_excess result ≡ reply (ask_excess (on new.now f) (on old.now g)) }
{
    admission::admit_pair(new, f, old, g)?;
    Ok(OnFloor {
        answer: excess::beyond(new, old),
        floor: f,
    })
}
