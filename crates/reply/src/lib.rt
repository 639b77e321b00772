// The one reply of every question, as numbers for a host: an answer does not cross to one. No other code turns an
// answer or a refusal into numbers.
#![tactic(auto)]

ghost use Rattle.std.specs.Prelude.{◌≡◌, [], ◌∷◌, ◌++◌, List, ℕ, ℤ, pos};
ghost use Rattle.plane.specs.Reply.{answered};
ghost use Rattle.clearance.specs.Answer.{values_of};
ghost use Rattle.separation.specs.Answer.{number_of};
ghost use Rattle.parts.specs.Part.{walk_numbers};
ghost use Rattle.part_questions.specs.Walk.{state_of};
ghost use Rattle.answers.specs.Answer.{on_floor, of_addition, of_tablet};
ghost use Rattle.answers.specs.Answer.{face_values, length_values, width_values, box_values, yes_values, found_values};
ghost use Rattle.answers.specs.Answer.{distance_values, beyond_values, lane_values, meeting_values, tangents_values};
ghost use Rattle.wire.specs.Told.{crossed, numbers};

use answers::{
    Addition, Answer, Beyond, Corner, Distance, Drive, Entry, Face, Gap, Lane, LeastBox, Length,
    Meeting, Nearest, Point, Refusal, Relation, Tangents, Unread, Width,
};
use part_questions::answer::Part;
use part_questions::walk::Walk;
pub use wire::Reply;
use wire::numbers;

// What a question on shapes answers: its values, and how they are told with the floor after them.
pub trait Told {
    ghost values: { Self → List ℤ };

    fn told(self, floor: u16) -> Reply
        ensures { numbers result ≡ crossed (answered (values self ++ (pos floor ∷ []))) };
}

// Returns the reply of a question on shapes: its answer with the floor, or its refusal.
pub fn of<T: Told>(answer: Answer<T>) -> Reply
    ensures { numbers result ≡ crossed (on_floor T.values answer) }
{
    match answer {
        Ok(found) => found.answer.told(found.floor),
        Err(refusal) => Reply::from(refusal),
    }
}

// How many corners a shape has that was judged or written.
impl Told for usize {
    ghost values = { λ count. pos count ∷ [] };

    fn told(self, floor: u16) -> Reply {
        numbers::answered([self as u64, u64::from(floor)])
    }
}

// Where a walk begins: the edges passed of either shape, and 1 if it is over.
impl Told for Walk {
    ghost values = { λ walk. walk_numbers (state_of walk) };

    fn told(self, floor: u16) -> Reply {
        numbers::answered([
            self.first as u64,
            self.second as u64,
            numbers::flag(self.over),
            u64::from(floor),
        ])
    }
}

// How many corners were written of a part, and the walk handed back.
impl Told for Part {
    ghost values = { λ part. pos part.count ∷ walk_numbers (state_of part.walk) };

    fn told(self, floor: u16) -> Reply {
        numbers::answered([
            self.count as u64,
            self.walk.first as u64,
            self.walk.second as u64,
            numbers::flag(self.walk.over),
            u64::from(floor),
        ])
    }
}

// The first and the last of the furthest corners, and their value, which may be below 0.
// Ruled out: sign of a value lost; size of a value told.
impl Told for Face {
    ghost values = { face_values };

    fn told(self, floor: u16) -> Reply {
        numbers::answered([
            self.first as u64,
            self.last as u64,
            numbers::bits(self.value),
            u64::from(floor),
        ])
    }
}

// The greatest squared distance, and two positions.
impl Told for Length {
    ghost values = { length_values };

    fn told(self, floor: u16) -> Reply {
        numbers::answered([
            self.squared,
            self.from as u64,
            self.to as u64,
            u64::from(floor),
        ])
    }
}

// Twice the area.
impl Told for u64 {
    ghost values = { λ twice. pos twice ∷ [] };

    fn told(self, floor: u16) -> Reply {
        numbers::answered([self, u64::from(floor)])
    }
}

// Edge, corner, turn, squared edge and rounded width.
impl Told for Width {
    ghost values = { width_values };

    fn told(self, floor: u16) -> Reply {
        numbers::answered([
            self.edge as u64,
            self.corner as u64,
            self.turn,
            self.squared,
            self.rounded,
            u64::from(floor),
        ])
    }
}

// Edge, height, along and squared edge.
impl Told for LeastBox {
    ghost values = { box_values };

    fn told(self, floor: u16) -> Reply {
        numbers::answered([
            self.edge as u64,
            self.height,
            self.along,
            self.squared,
            u64::from(floor),
        ])
    }
}

// 0 for apart, 1 for touching, 2 for overlapping.
// Ruled out: touching told as overlapping.
impl Told for Relation {
    ghost values = { λ relation. number_of relation ∷ [] };

    fn told(self, floor: u16) -> Reply {
        match self {
            Relation::Apart => numbers::answered([0, u64::from(floor)]),
            Relation::Touching => numbers::answered([1, u64::from(floor)]),
            Relation::Overlapping => numbers::answered([2, u64::from(floor)]),
        }
    }
}

// 1 for yes, as of a direction that is accepted, and 0 for no.
impl Told for bool {
    ghost values = { yes_values };

    fn told(self, floor: u16) -> Reply {
        numbers::answered([numbers::flag(self), u64::from(floor)])
    }
}

// 1 and a direction, whose parts may be below 0; or 0 if there is none.
impl Told for Option<Point> {
    ghost values = { found_values (λ d. d.x ∷ d.y ∷ []) };

    fn told(self, floor: u16) -> Reply {
        let Some(direction) = self else {
            return nothing(floor);
        };
        numbers::answered([
            1,
            numbers::extended(direction.x),
            numbers::extended(direction.y),
            u64::from(floor),
        ])
    }
}

// 0 for not apart, else the numbers of the distance.
impl Told for Option<Distance> {
    ghost values = { distance_values };

    fn told(self, floor: u16) -> Reply {
        match self {
            Some(distance) => distance.told(floor),
            None => nothing(floor),
        }
    }
}

// 1 for two corners, 2 for a corner of the first shape and an edge of the second, 3 for the reverse; the positions; of
// two corners their squared distance, else turn and squared edge; the rounded distance.
impl Told for Distance {
    ghost values = { values_of };

    fn told(self, floor: u16) -> Reply {
        let floor = u64::from(floor);
        match self {
            Distance::Corners {
                first,
                second,
                squared,
                rounded,
            } => numbers::answered([1, first as u64, second as u64, squared, rounded, floor]),
            Distance::OnSecond {
                corner,
                edge,
                turn,
                squared,
                rounded,
            } => numbers::answered([2, corner as u64, edge as u64, turn, squared, rounded, floor]),
            Distance::OnFirst {
                corner,
                edge,
                turn,
                squared,
                rounded,
            } => numbers::answered([3, corner as u64, edge as u64, turn, squared, rounded, floor]),
        }
    }
}

// The name of the nearest shape, and then its distance.
impl Told for Nearest {
    ghost values = { λ near. pos near.name ∷ distance_values near.distance };

    fn told(self, floor: u16) -> Reply {
        numbers::preceded(u64::from(self.name), self.distance.told(floor))
    }
}

// The names of the two shapes with the narrowest gap, and then their distance.
impl Told for Gap {
    ghost values = { λ gap. pos gap.name ∷ pos gap.other ∷ distance_values gap.distance };

    fn told(self, floor: u16) -> Reply {
        let other = numbers::preceded(u64::from(self.other), self.distance.told(floor));
        numbers::preceded(u64::from(self.name), other)
    }
}

// How far a changed shape reaches: 0 if it is inside the old one; 1 and two corners, or 2 and a corner and an edge,
// with the distance rounded up.
impl Told for Option<Beyond> {
    ghost values = { beyond_values };

    fn told(self, floor: u16) -> Reply {
        match self {
            Some(
                Beyond::Corners {
                    corner,
                    other,
                    squared,
                    up,
                },
            ) => numbers::answered([
                1,
                corner as u64,
                other as u64,
                squared,
                up,
                u64::from(floor),
            ]),
            Some(
                Beyond::Edge {
                    corner,
                    edge,
                    turn,
                    squared,
                    up,
                },
            ) => numbers::answered([
                2,
                corner as u64,
                edge as u64,
                turn,
                squared,
                up,
                u64::from(floor),
            ]),
            None => nothing(floor),
        }
    }
}

// 0 for blocked; or 1, the direction, the two lines, all of which may be below 0, and the width.
// Ruled out: lines exchanged.
impl Told for Option<Lane> {
    ghost values = { found_values lane_values };

    fn told(self, floor: u16) -> Reply {
        let Some(lane) = self else {
            return nothing(floor);
        };
        numbers::answered([
            1,
            numbers::extended(lane.u),
            numbers::extended(lane.v),
            numbers::bits(lane.low),
            numbers::bits(lane.high),
            lane.width,
            u64::from(floor),
        ])
    }
}

// 0 for never; or 1, the fraction of the way, and the millimetres before it.
impl Told for Option<Meeting> {
    ghost values = { found_values meeting_values };

    fn told(self, floor: u16) -> Reply {
        let Some(meeting) = self else {
            return nothing(floor);
        };
        numbers::answered([
            1,
            meeting.numerator,
            meeting.denominator,
            meeting.safe,
            u64::from(floor),
        ])
    }
}

// 0 for never; or 1, the name, the fraction of the way, and the millimetres before it.
impl Told for Option<Drive> {
    ghost values = { found_values (λ drive. pos drive.name ∷ meeting_values drive.meeting) };

    fn told(self, floor: u16) -> Reply {
        let Some(drive) = self else {
            return nothing(floor);
        };
        numbers::answered([
            1,
            u64::from(drive.name),
            drive.meeting.numerator,
            drive.meeting.denominator,
            drive.meeting.safe,
            u64::from(floor),
        ])
    }
}

// The positions of four lines, of each the one in the first shape before the one in the second.
impl Told for Tangents {
    ghost values = { tangents_values };

    fn told(self, floor: u16) -> Reply {
        numbers::answered([
            self.left.from as u64,
            self.left.to as u64,
            self.right.from as u64,
            self.right.to as u64,
            self.crossing.from as u64,
            self.crossing.to as u64,
            self.reverse.from as u64,
            self.reverse.to as u64,
            u64::from(floor),
        ])
    }
}

// How many corners the current shape has, and its name.
impl Told for Entry {
    ghost values = { λ entry. pos entry.count ∷ pos entry.name ∷ [] };

    fn told(self, floor: u16) -> Reply {
        numbers::answered([self.count as u64, u64::from(self.name), u64::from(floor)])
    }
}

// Returns that there is nothing to tell.
fn nothing(floor: u16) -> Reply
    ensures { numbers result ≡ crossed (answered (pos 0 ∷ pos floor ∷ [])) }
{
    numbers::answered([0, u64::from(floor)])
}

// Returns the whole numbers of millimetres of a corner, x and y, which may be below 0.
pub fn of_tablet(answer: Result<Corner, Unread>) -> Reply
    ensures { numbers result ≡ crossed (of_tablet answer).reply }
{
    match answer {
        Ok(corner) => numbers::answered([numbers::extended(corner.x), numbers::extended(corner.y)]),
        Err(refusal) => Reply::from(refusal),
    }
}

// Returns 1 for finished, 0 for cut.
pub fn of_addition(answer: Result<Addition, Refusal>) -> Reply
    ensures { numbers result ≡ crossed (of_addition answer) }
{
    match answer {
        Ok(Addition::Finished) => numbers::answered([1]),
        Ok(Addition::Cut) => numbers::answered([0]),
        Err(refusal) => Reply::from(refusal),
    }
}
